//! Programs, checked or not, and the programs of a lab.

ghost use Rattle.std.specs.Prelude.{◌≡◌, ◌↔◌, IsTrue, true, ◌==◌, ◌≤◌, ◌++◌, ◌∷◌, [], length, map, OnOk, OnErr, IfOk, IfErr, IfSome, IfNone, slice_get, Some, None};
ghost use Rattle.std.specs.Arc.{arc_value};
ghost use Rattle.zl_interp.specs.Program.{program_value};
ghost use Rattle.zl_code.specs.Spells.{is_in_range};
ghost use Rattle.zl_verify.specs.Checks.{HasStepBound};
ghost use Rattle.zl_verify.specs.Covered.{IsVerified};

use std::alloc::{AllocError, AllocFailed, Global};
use std::marker::Model;
use std::sync::Arc;
use zl_code::Image;
use zl_verify::Checked;

/// A program as a library lists it.
///
/// Source: own profile.
#[derive(Drop)]
pub enum Program {
    /// A program that was not checked; its processes may be refused and may be stuck.
    Raw(Image),
    /// A program that the verifier accepted; its processes start only with what it declares.
    Checked(Checked),
}

impl Program {
    /// The image of the program.
    pub fn image(&self) -> &Image
        ensures { result.now ≡ (program_value self.now).image }
    {
        match self {
            Program::Raw(image) => image,
            Program::Checked(accepted) => accepted.image(),
        }
    }

    /// Its image is in its ranges and, if it was checked, has a typing with a step bound.
    fn verified(&self)
        ensures range { IsTrue (is_in_range (program_value self.now).image) }
        ensures bound { (program_value self.now).checked ≡ true
            → HasStepBound (program_value self.now).image }
    {
        match self {
            Program::Raw(image) => {
                image.len();
            }
            Program::Checked(accepted) => {
                accepted.image().len();
            }
        }
    }

    /// Whether the other program is the same: its image, and whether it was checked.
    pub fn is_same(&self, other: &Program) -> bool
        ensures { IsTrue result ↔ program_value self.now ≡ program_value other.now }
    {
        self.is_checked() == other.is_checked() && self.image().is_same(other.image())
    }

    /// Whether the program was checked, so that what it declares counts.
    pub fn is_checked(&self) -> bool
        ensures { result ≡ (program_value self.now).checked }
    {
        match self {
            Program::Raw(_) => false,
            Program::Checked(_) => true,
        }
    }
}

/// The programs of a lab, by their numbers from 0.
///
/// Each may be kept by others too, so that a process can run it beside the library.
///
/// Source: own profile.
#[derive(Drop)]
pub struct Library {
    programs: Vec<Arc<Program>>,
    alloc: Global,
}

impl Model for Library {
    ghost use Rattle.std.specs.Prelude.{map};
    ghost use Rattle.std.specs.Arc.{arc_value};
    ghost use Rattle.zl_code.specs.Image.{Library as Programs};

    ghost Value = { Programs };

    ghost use Rattle.zl_interp.specs.Program.{program_value};

    ghost view = { λ l. map (λ program. program_value (arc_value program)) l.programs.items };

    ghost use Rattle.zl_verify.specs.Covered.{IsVerified};

    ghost invariant = { λ l.
        IsVerified (map (λ program. program_value (arc_value program)) l.programs.items) };
}

impl Library {
    /// A library without programs.
    pub fn new(alloc: Global) -> Library
        ensures { result ≡ [] }
    {
        Library {
            programs: Vec::new(alloc),
            alloc,
        }
    }

    /// How many programs there are.
    pub fn len(&self) -> usize
        ensures count { result ≡ length self.now }
        // What is public of the invariant: callers learn it here of any library.
        ensures verified { IsVerified self.now }
    {
        self.programs.len()
    }

    /// Whether there is no program.
    pub fn is_empty(&self) -> bool
        ensures { result ≡ (length self.now == 0) }
    {
        self.programs.is_empty()
    }

    /// Adds the program, which gets the next number.
    ///
    /// Only memory can be refused; then nothing changes, and the program comes back.
    pub fn push(&mut self, program: Program) -> Result<(), AllocFailed<Program>>
        ensures added { OnOk result (self.new ≡ self.old ++ program_value program ∷ []) }
        ensures unchanged { OnErr result (self.new ≡ self.old) }
        ensures handed_back { IfErr result (λ refused. refused.value ≡ program) }
    {
        if self.programs.reserve(1).is_err() {
            return Err(AllocFailed { value: program });
        }
        program.verified();
        let program = Arc::new(self.alloc, program)?;
        self.programs.push_reserved(program);
        Ok(())
    }

    /// The program of this number, if there is one.
    pub fn get(&self, number: usize) -> Option<&Program>
        ensures found { IfSome result
            (λ program. slice_get self.now number ≡ Some (program_value program.now)) }
        ensures missing { IfNone result (length self.now ≤ number) }
    {
        let program = self.programs.get(number)?;
        Some(program)
    }

    /// The program of this number, if there is one, for whoever keeps it beside the library.
    pub fn shared(&self, number: usize) -> Option<&Arc<Program>>
        ensures found { IfSome result (λ program.
            slice_get self.now number ≡ Some (program_value (arc_value program.now))) }
        ensures missing { IfNone result (length self.now ≤ number) }
    {
        self.programs.get(number)
    }

    /// Another library of the same programs, which both keep. Only memory can be refused.
    pub fn copy(&self, alloc: Global) -> Result<Library, AllocError>
        ensures { IfOk result (λ library. library ≡ self.now) }
    {
        Ok(Library {
            programs: shared_all(alloc, &self.programs)?,
            alloc,
        })
    }

    /// Whether the other library has the same programs in the same order: their images, and whether
    /// they were checked.
    pub fn is_same(&self, other: &Library) -> bool
        ensures { IsTrue result ↔ self.now ≡ other.now }
    {
        are_same_programs(&self.programs, &other.programs)
    }
}

/// The same programs once more, kept by both lists.
fn shared_all(alloc: Global, programs: &[Arc<Program>]) -> Result<Vec<Arc<Program>>, AllocError>
    ensures { IfOk result (λ shared. map (λ program. program_value (arc_value program)) shared.items
        ≡ map (λ program. program_value (arc_value program)) programs.now) }
{
    let mut shared = Vec::with_capacity(alloc, programs.len())?;
    for program in programs {
        let again = Arc::try_clone(program)?;
        shared.push(again)?;
    }
    Ok(shared)
}

/// Whether both have the same programs in the same order.
fn are_same_programs(one: &[Arc<Program>], other: &[Arc<Program>]) -> bool
    ensures { IsTrue result ↔ map (λ program. program_value (arc_value program)) one.now
        ≡ map (λ program. program_value (arc_value program)) other.now }
{
    if one.len() != other.len() {
        return false;
    }
    for n in 0..one.len() {
        if !is_same_program(&one[n], &other[n]) {
            return false;
        }
    }
    true
}

fn is_same_program(one: &Arc<Program>, other: &Arc<Program>) -> bool
    ensures { IsTrue result ↔ program_value (arc_value one.now) ≡ program_value (arc_value other.now) }
{
    one.is_same(other)
}
