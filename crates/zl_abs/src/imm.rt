ghost use Rattle.std.specs.Prelude.{◌≡◌};
ghost use Rattle.zl_code.specs.declared.instr.Instr.TheVariants as instr;
ghost use Rattle.zl_abs.specs.Bounds.{imm_of};

use zl_code::{CallInstr, Ending, Instr, LocalInstr};

/// The number in a known instruction, where it uses one.
#[tactic(auto, unfolding(crate::specs::Bounds::imm_of))]
pub(crate) fn imm_of(instr: &Instr) -> Option<u32>
    ensures { result ≡ imm_of instr.now }
{
    match instr {
        Instr::Local(local) => imm_of_local(local),
        Instr::Call(call) => imm_of_call(call),
        Instr::Unknown(_) => None,
    }
}

#[tactic(auto, unfolding(crate::specs::Bounds::imm_of, zl_code::specs::Instructions::row_of, zl_code::specs::Spells::local_parts))]
fn imm_of_local(local: &LocalInstr) -> Option<u32>
    ensures { result ≡ imm_of (instr.Local local.now) }
{
    match local {
        LocalInstr::Const { number, .. }
        | LocalInstr::AddNumber { number, .. }
        | LocalInstr::JumpEqual { number, .. }
        | LocalInstr::JumpNotEqual { number, .. }
        | LocalInstr::JumpBelow { number, .. }
        | LocalInstr::JumpNotBelow { number, .. } => Some(*number),
        LocalInstr::ShiftLeft { places, .. } | LocalInstr::ShiftRight { places, .. } => Some(
            *places,
        ),
        LocalInstr::Swap { array, .. } => Some(*array),
        LocalInstr::LoadByte { offset, .. }
        | LocalInstr::LoadWord { offset, .. }
        | LocalInstr::StoreByte { offset, .. }
        | LocalInstr::StoreWord { offset, .. } => Some(*offset),
        LocalInstr::JumpHas { bits, .. } | LocalInstr::JumpHasNot { bits, .. } => Some(*bits),
        LocalInstr::Rep { count, .. } => Some(*count),
        _ => None,
    }
}

/// The number in the call, where its row uses one.
#[tactic(auto, unfolding(crate::specs::Bounds::imm_of))]
fn imm_of_call(call: &CallInstr) -> Option<u32>
    ensures { result ≡ imm_of (instr.Call call.now) }
{
    match call.name.row().columns.ending {
        Ending::Number | Ending::Both | Ending::Room | Ending::FromSlots | Ending::IntoSlots =>
            Some(call.number()),
        _ => None,
    }
}
