//! Bursts: the local instructions that a process does in a row, without its world.

ghost use Rattle.std.specs.Prelude.{◌≡◌, ◌≤◌, ◌<◌, ◌↔◌, ◌+◌, Some, IsTrue, IfOk, false, length, slice_get, slice_index_or, slice_set};
ghost use Rattle.std.specs.Arc.{arc_value};
ghost use Rattle.zl_code.specs.Image.{Image as ImageValue};
ghost use Rattle.zl_code.specs.Steps.{next_at};
ghost use Rattle.zl_interp.specs.Bursts.{Agrees, AreUnmarked, HasBytes, IsBurst, IsSpelledAt, IsSpelledFrom, Leads, Matches, is_filled, marked, stop_at};
ghost use Rattle.zl_interp.specs.Program.{program_value};
ghost use Rattle.zl_interp.specs.declared.bursts.Stop.TheVariants.{More};
ghost use Rattle.zl_verify.specs.Covered.{IsAble, IsAbleIn};

use crate::cpu::Cpu;
use crate::next::{step_in, step_sure, stop_of};
use crate::program::Program;
use crate::work::{Spent, Work};
use std::alloc::{AllocError, Global};
use std::marker::Model;
use std::sync::Arc;
use zl_code::{Image, Instr, Version};
use zl_rights::Pid;

/// Where a burst ended.
///
/// Source: own profile.
#[derive(Clone, Copy, PartialEq, Eq, Debug)]
pub enum Stop {
    /// A system call stands next.
    AtCall,
    /// A local instruction stands next, and can be done.
    More,
    /// Nothing stands next that can be done.
    Stuck,
}

/// A process that may go on by itself: its koid, its program, and its Cpu as it stands.
///
/// Where its program was checked, the Cpu is as a typing of it says. There is room for a second
/// Cpu, and a mark for each instruction of the program, so that a burst takes no memory.
///
/// Source: own profile.
#[derive(Drop)]
pub struct Turn {
    pid: Pid,
    program: Arc<Program>,
    work: Box<Work>,
}

impl Model for Turn {
    ghost use Rattle.std.specs.Prelude.{◌≡◌, length};
    ghost use Rattle.std.specs.Arc.{arc_value};
    ghost use Rattle.zl_interp.specs.Bursts.{Turn as TurnValue};
    ghost use Rattle.zl_interp.specs.Program.{program_value};

    ghost Value = { TurnValue };

    ghost view = { λ t. record {
      pid = t.pid;
      program = program_value (arc_value t.program);
      cpu = t.work.value.from;
    } };

    ghost use Rattle.zl_verify.specs.Covered.{IsAbleIn};

    ghost invariant = { λ t.
        (t.work.value.to ≡ t.work.value.from)
        × IsAbleIn (program_value (arc_value t.program)) t.work.value.from
        × (length t.work.value.marks.items
        ≡ length (program_value (arc_value t.program)).image.code) };
}

impl Turn {
    /// A turn of the process with this koid, which runs the program and has this Cpu.
    ///
    /// The Cpu of a checked program has to be as a typing of it says. Where something is left of another
    /// turn, that is used up. Only memory can be refused.
    pub fn new(
        alloc: Global,
        pid: Pid,
        program: &Arc<Program>,
        cpu: &Cpu,
        spare: &mut Option<Spent>,
    ) -> Result<Turn, AllocError>
        requires able { IsAbleIn (program_value (arc_value program.now)) cpu.now }
        ensures { IfOk result (λ turn. turn ≡ record {
          pid = pid;
          program = program_value (arc_value program.now);
          cpu = cpu.now;
        }) }
    {
        let len = program.image().len();
        Ok(Turn {
            pid,
            program: Arc::try_clone(program)?,
            work: Work::begun(alloc, cpu, len, spare)?,
        })
    }

    /// The koid of the process.
    pub fn pid(&self) -> Pid
        ensures { result ≡ self.now.pid }
    {
        self.pid
    }

    /// What the process computes with.
    pub fn cpu(&self) -> &Cpu
        ensures { result.now ≡ self.now.cpu }
    {
        &self.work.from
    }
}

/// What a process did by itself: how many local instructions in a row, from which Cpu to which, and
/// where they ended.
///
/// Of its program count the version, the instructions that were done, and the one that stands
/// next. Only `burst` makes one, so all this is so in each program of the same version and length
/// with the same instructions in these places.
///
/// Source: own profile.
#[derive(Drop)]
pub struct Done {
    pid: Pid,
    program: Arc<Program>,
    ran: u32,
    stop: Stop,
    work: Box<Work>,
}

impl Model for Done {
    ghost use Rattle.std.specs.Prelude.{◌≡◌, length};
    ghost use Rattle.std.specs.Arc.{arc_value};
    ghost use Rattle.zl_interp.specs.Bursts.{Done as DoneValue, IsBurst, marked};
    ghost use Rattle.zl_interp.specs.Program.{program_value};

    ghost Value = { DoneValue };

    ghost view = { λ d. record {
      pid = d.pid;
      from = d.work.value.from;
      to = d.work.value.to;
      ran = d.ran;
      stop = d.stop;
      version = (program_value (arc_value d.program)).image.version;
      places = marked (program_value (arc_value d.program)).image.code d.work.value.marks.items;
    } };

    ghost invariant = { λ d. IsBurst (record {
      pid = d.pid;
      from = d.work.value.from;
      to = d.work.value.to;
      ran = d.ran;
      stop = d.stop;
      version = (program_value (arc_value d.program)).image.version;
      places = marked (program_value (arc_value d.program)).image.code d.work.value.marks.items;
    }) × (length d.work.value.marks.items
        ≡ length (program_value (arc_value d.program)).image.code) };
}

impl Done {
    /// The koid of the process.
    pub fn pid(&self) -> Pid
        ensures { result ≡ self.now.pid }
    {
        self.pid
    }

    /// The Cpu with which it began.
    pub fn from(&self) -> &Cpu
        ensures { result.now ≡ self.now.from }
    {
        &self.work.from
    }

    /// How many local instructions it did; they lead from the first Cpu to the second.
    pub fn ran(&self) -> u32
        ensures count { result ≡ self.now.ran }
        ensures follows { IsBurst self.now }
    {
        self.ran
    }

    /// Where it ended.
    pub fn stop(&self) -> Stop
        ensures { result ≡ self.now.stop }
    {
        self.stop
    }

    /// Whether the instruction of this number was done or stands next.
    pub fn is_filled(&self, place: usize) -> bool
        ensures { result ≡ is_filled self.now.places place }
    {
        is_marked(&self.work.marks, place)
    }

    /// Whether the image has the version of its program and as many instructions as that, and the
    /// same one in each place that is filled. It takes no memory.
    pub fn agrees(&self, image: &Image) -> bool
        ensures { IsTrue result ↔ Matches image.now self.now }
    {
        let own = self.program.image();
        are_same_versions(image.version(), own.version())
            && has_marked(image.code(), own.code(), &self.work.marks)
    }

    /// The Cpu becomes the one with which it ended. What is left comes back.
    pub fn move_to(self, cpu: &mut Cpu) -> Spent
        ensures { cpu.new ≡ self.to }
    {
        let Done { mut work, .. } = self;
        std::mem::swap(cpu, &mut work.to);
        Spent { work }
    }

    /// What is left of it where nobody takes it.
    pub fn spent(self) -> Spent {
        Spent { work: self.work }
    }
}

/// Whether there is a place with this number, and it is marked.
fn is_marked(marks: &[bool], place: usize) -> bool
    ensures { result ≡ slice_index_or marks.now place false }
{
    place < marks.len() && marks[place]
}

fn are_same_versions(one: Version, other: Version) -> bool
    ensures { IsTrue result ↔ one ≡ other }
{
    one == other
}

/// How many marks are looked at in one go.
const BLOCK: usize = 64;

/// Whether both have as many instructions, and in each marked place one with the same bytes.
#[inline(never)]
fn has_marked(code: &[Instr], own: &[Instr], marks: &[bool]) -> bool
    requires { length marks.now ≡ length own.now }
    ensures { IsTrue result ↔ HasBytes code.now (marked own.now marks.now) }
{
    if code.len() != own.len() {
        return false;
    }
    let blocks = marks.len() / BLOCK;
    for block in 0..blocks {
        if !has_block(code, own, marks, block * BLOCK) {
            return false;
        }
    }
    has_range(code, own, marks, blocks * BLOCK, marks.len())
}

/// Whether each marked place of the block that begins here has the same bytes.
fn has_block(code: &[Instr], own: &[Instr], marks: &[bool], start: usize) -> bool
    requires long { (length marks.now ≡ length own.now) × (length code.now ≡ length own.now) }
    requires within { start + 64 ≤ length own.now }
    ensures { IsTrue result ↔ IsSpelledFrom code.now (marked own.now marks.now) start (start + 64) }
{
    let end = start + BLOCK;
    !is_any_marked(marks, start, end) || has_range(code, own, marks, start, end)
}

/// Whether each marked place from the first of these on has the same bytes, up to the second.
fn has_range(code: &[Instr], own: &[Instr], marks: &[bool], start: usize, end: usize) -> bool
    requires long { (length marks.now ≡ length own.now) × (length code.now ≡ length own.now) }
    requires within { (start ≤ end) × (end ≤ length own.now) }
    ensures { IsTrue result ↔ IsSpelledFrom code.now (marked own.now marks.now) start end }
{
    for n in start..end {
        if !is_in_place(code, own, marks, n) {
            return false;
        }
    }
    true
}

/// Whether a place from the first of these on is marked, up to the second. It tests once, at the
/// end.
#[inline(always)]
fn is_any_marked(marks: &[bool], start: usize, end: usize) -> bool
    requires { (start ≤ end) × (end ≤ length marks.now) }
    ensures { result ≡ false → AreUnmarked marks.now start end }
{
    let mut any = false;
    for n in start..end {
        any |= marks[n];
    }
    any
}

/// Whether the place isn't marked, or has the bytes of the instruction.
#[inline(always)]
fn is_in_place(code: &[Instr], own: &[Instr], marks: &[bool], n: usize) -> bool
    requires long { (length marks.now ≡ length own.now) × (length code.now ≡ length own.now) }
    requires within { n < length own.now }
    ensures { IsTrue result ↔ IsSpelledAt code.now (marked own.now marks.now) n }
{
    !marks[n] || code[n].is_spelled_like(&own[n])
}

/// Lets the process of the turn go on by itself, for at most so many local instructions.
///
/// It ends at a system call, where the process is stuck, or once it did as many as it may. It takes
/// no memory, and waits for nobody. For a checked program it tests only whether a call stands next.
/// Source: own profile.
pub fn burst(turn: Turn, most: u32) -> Done
    ensures process { result.pid ≡ turn.pid }
    ensures from { result.from ≡ turn.cpu }
    ensures version { result.version ≡ turn.program.image.version }
    ensures agrees { Agrees turn.program.image.code result.places }
    ensures follows { IsBurst result }
    ensures within { result.ran ≤ most }
    ensures whole { result.stop ≡ More → result.ran ≡ most }
{
    let Turn {
        pid,
        program,
        mut work,
    } = turn;
    let ran = go(&program, &mut work, most);
    let stop = stop_of(&program, &work.to);
    Done {
        pid,
        program,
        ran,
        stop,
        work,
    }
}

/// Lets the second Cpu go on.
fn go(program: &Program, work: &mut Work, most: u32) -> u32
    requires begins { work.old.to ≡ work.old.from }
    requires able { IsAbleIn (program_value program.now) work.old.from }
    requires long { length work.old.marks.items ≡ length (program_value program.now).image.code }
    ensures from { work.new.from ≡ work.old.from }
    ensures long { length work.new.marks.items ≡ length (program_value program.now).image.code }
    ensures leads { Leads (marked (program_value program.now).image.code work.new.marks.items)
        result work.new.from work.new.to }
    ensures next { (i : ImageValue)
        → Agrees i.code (marked (program_value program.now).image.code work.new.marks.items)
        → next_at i work.new.to ≡ next_at (program_value program.now).image work.new.to }
    ensures within { result ≤ most }
    ensures whole { stop_at (next_at (program_value program.now).image work.new.to) ≡ More
        → result ≡ most }
{
    run(program, &mut work.to, &mut work.marks, most)
}

/// Does local instructions of the program in a row, with tests just where it wasn't checked.
fn run(program: &Program, cpu: &mut Cpu, marks: &mut [bool], most: u32) -> u32
    requires able { IsAbleIn (program_value program.now) cpu.old }
    requires long { length marks.old ≡ length (program_value program.now).image.code }
    ensures leads { Leads (marked (program_value program.now).image.code marks.new)
        result cpu.old cpu.new }
    ensures next { (i : ImageValue)
        → Agrees i.code (marked (program_value program.now).image.code marks.new)
        → next_at i cpu.new ≡ next_at (program_value program.now).image cpu.new }
    ensures within { result ≤ most }
    ensures whole { stop_at (next_at (program_value program.now).image cpu.new) ≡ More
        → result ≡ most }
{
    if program.is_checked() {
        run_on_sure(program.image(), cpu, marks, most)
    } else {
        run_on(program.image(), cpu, marks, most)
    }
}

/// Does local instructions in a row, at most so many, as long as one stands next that can be done. The
/// places of these are marked, and of the one that stands next then.
#[tactic(auto, unfolding(zl_code::specs::Steps::next_at))]
fn run_on(image: &Image, cpu: &mut Cpu, marks: &mut [bool], most: u32) -> u32
    requires { length marks.old ≡ length image.now.code }
    ensures leads { Leads (marked image.now.code marks.new) result cpu.old cpu.new }
    ensures next { (i : ImageValue) → Agrees i.code (marked image.now.code marks.new)
        → next_at i cpu.new ≡ next_at image.now cpu.new }
    ensures within { result ≤ most }
    ensures whole { stop_at (next_at image.now cpu.new) ≡ More → result ≡ most }
{
    let code = image.code();
    let mut counter = cpu.counter;
    for ran in 0..most {
        mark(marks, code, counter);
        let Some(next) = step_in(code, cpu, counter) else {
            cpu.counter = counter;
            return ran;
        };
        counter = next;
    }
    mark(marks, code, counter);
    cpu.counter = counter;
    most
}

/// Does the same for a Cpu that is as a typing of the image says: until a call stands next, each
/// instruction can be done, so that isn't tested.
#[tactic(auto, unfolding(zl_code::specs::Steps::next_at))]
fn run_on_sure(image: &Image, cpu: &mut Cpu, marks: &mut [bool], most: u32) -> u32
    requires able { IsAble image.now cpu.old }
    requires long { length marks.old ≡ length image.now.code }
    ensures leads { Leads (marked image.now.code marks.new) result cpu.old cpu.new }
    ensures next { (i : ImageValue) → Agrees i.code (marked image.now.code marks.new)
        → next_at i cpu.new ≡ next_at image.now cpu.new }
    ensures within { result ≤ most }
    ensures whole { stop_at (next_at image.now cpu.new) ≡ More → result ≡ most }
{
    let code = image.code();
    let mut counter = cpu.counter;
    for ran in 0..most {
        mark(marks, code, counter);
        let Some(next) = step_sure(code, cpu, counter) else {
            cpu.counter = counter;
            return ran;
        };
        counter = next;
    }
    mark(marks, code, counter);
    cpu.counter = counter;
    most
}

/// Marks the place of the instruction with this number, if there is one.
#[inline(always)]
fn mark(marks: &mut [bool], code: &[Instr], counter: usize)
    requires { length marks.old ≡ length code.now }
    ensures long { length marks.new ≡ length code.now }
    ensures filled { marked code.now marks.new
        ≡ slice_set (marked code.now marks.old) counter (slice_get code.now counter) }
{
    if counter < code.len() {
        marks[counter] = true;
    }
}
