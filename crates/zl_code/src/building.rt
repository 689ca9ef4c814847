//! An image under construction: an empty one, and then one thing after the other.

ghost use Rattle.std.specs.List.{list_all};
ghost use Rattle.std.specs.Prelude.{◌≡◌, ◌≤◌, ◌<◌, ◌++◌, ◌∷◌, [], map, true, length, OnOk, OnErr, IsTrue};
ghost use Rattle.zl_code.specs.Blocks.{are_blocks, marks_of};
ghost use Rattle.zl_code.specs.Jumps.{jump_of};
ghost use Rattle.zl_code.specs.Limits.{most_instructions, most_memory, most_budget, most_starts, most_slot_arrays};
ghost use Rattle.zl_code.specs.Image.{blank_image, needs_named};
ghost use Rattle.zl_code.specs.Spells.{is_start_in_range, is_slot_in_range, is_instr_in_range};

use crate::image::{Image, Needs, SlotArray, Start, Version};
use crate::instr::Instr;
use std::alloc::{AllocError, Global};
use zl_rights::Condition;

impl Image {
    /// An image of version 1 without instructions that declares nothing: no raw mark, no data memory,
    /// and the budget 1.
    #[tactic(auto, unfolding(crate::specs::Blocks::all_nest, crate::specs::Blocks::all_stay))]
    pub fn new(alloc: Global) -> Image
        ensures { result ≡ blank_image }
    {
        Image {
            version: Version::One,
            raw: false,
            memory: 0,
            budget: 1,
            needs: Needs {
                channel: false,
                event: false,
                eventpair: false,
                port: false,
                process: false,
            },
            starts: Vec::new(alloc),
            slots: Vec::new(alloc),
            code: Vec::new(alloc),
        }
    }

    /// Sets the version of the format of its bytes. The image has no instructions yet.
    pub fn set_version(&mut self, version: Version)
        requires { self.old.code ≡ [] }
        ensures { self.new ≡ record self.old { version = version } }
    {
        self.version = version;
    }

    /// Sets the raw mark, under which unknown opcodes may stand.
    pub fn mark_raw(&mut self)
        ensures { self.new ≡ record self.old { raw = true } }
    {
        self.raw = true;
    }

    /// Sets how many bytes of data memory the program has, at most 65,536.
    pub fn set_memory(&mut self, memory: u32)
        requires { memory ≤ most_memory }
        ensures { self.new ≡ record self.old { memory = memory } }
    {
        self.memory = memory;
    }

    /// Sets the budget, 1 to 1,000,000.
    pub fn set_budget(&mut self, budget: u32)
        requires least { 1 ≤ budget }
        requires most { budget ≤ most_budget }
        ensures { self.new ≡ record self.old { budget = budget } }
    {
        self.budget = budget;
    }

    /// Declares that the processes of the program have to be allowed to make objects by this
    /// condition. One that can't be declared (`can_need`) changes nothing.
    pub fn add_need(&mut self, condition: Condition)
        ensures { self.new ≡ record self.old { needs = needs_named (condition ∷ self.old.needs) } }
    {
        match condition {
            Condition::NewChannel => self.needs.channel = true,
            Condition::NewEvent => self.needs.event = true,
            Condition::NewEventpair => self.needs.eventpair = true,
            Condition::NewPort => self.needs.port = true,
            Condition::NewProcess => self.needs.process = true,
            Condition::BadHandle | Condition::WrongObject | Condition::NewAny => {}
        }
    }

    /// Adds a start handle behind the others, of which there are fewer than 7. The error says that
    /// memory was refused; the image is then as it was.
    pub fn push_start(&mut self, start: Start) -> Result<(), AllocError>
        requires in_range { IsTrue (is_start_in_range start) }
        requires room { length self.old.starts < most_starts }
        ensures ok { OnOk result
            (self.new ≡ record self.old { starts = self.old.starts ++ (start ∷ []) }) }
        ensures err { OnErr result (self.new ≡ self.old) }
    {
        self.starts.push(start)?;
        Ok(())
    }

    /// Adds a slot array behind the others, of which there are fewer than 8. The error says that
    /// memory was refused; the image is then as it was.
    pub fn push_slot_array(&mut self, array: SlotArray) -> Result<(), AllocError>
        requires in_range { IsTrue (is_slot_in_range array) }
        requires room { length self.old.slots < most_slot_arrays }
        ensures ok { OnOk result
            (self.new ≡ record self.old { slots = self.old.slots ++ (array ∷ []) }) }
        ensures err { OnErr result (self.new ≡ self.old) }
    {
        self.slots.push(array)?;
        Ok(())
    }

    /// Gives the image its instructions, in place of those that it has: at most 4,096, each in its range,
    /// which together keep the rule of counted blocks (`are_blocks`).
    pub fn set_code(&mut self, code: Vec<Instr>)
        requires in_range { IsTrue (list_all (is_instr_in_range self.old.version self.old.raw)
            code.items) }
        requires most { length code.items ≤ most_instructions }
        requires blocks { are_blocks (marks_of code.items) (map jump_of code.items) ≡ true }
        ensures { self.new ≡ record self.old { code = code.items } }
    {
        self.code = code;
    }
}
