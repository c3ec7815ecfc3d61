ghost use Rattle.std.specs.Prelude.{◌≡◌, ◌≤◌, ℕ, length, take, slice_index_or};
ghost use Rattle.tal_types.specs.declared.types.Ty.TheVariants.{Junk};

use crate::types::{FlagKind, Ty};
use ia32_code::Reg;

/// All that is known before an instruction. Contracts see it as `context_of` says.
#[derive(Clone, Copy, Debug, PartialEq, Eq)]
pub struct Context {
    /// no run comes here; nothing else counts then
    pub dead: bool,
    /// the registers' types by their numbers, Junk for ESP
    pub regs: [Ty; 8],
    /// the types of the frame's slots, slot 0 first, Junk past the last
    pub slots: [Ty; 64],
    /// how many slots the frame has, 0 to 64
    pub depth: u8,
    /// what the flags tell
    pub kind: FlagKind,
    /// bit 8i + a: register i is below the length of the array in register a
    pub pairs: u64,
    /// bit 8t + r: register t holds the table of the object in register r
    pub heads: u64,
    pub ghost shallow: { depth ≤ 64 },
    pub ghost stack_pointer: { slice_index_or regs 4 Junk ≡ Junk },
    pub ghost no_more_slots: { (k : ℕ) → depth ≤ k → slice_index_or slots k Junk ≡ Junk },
}

/// Types alone, as an image tells them of a block: those of EAX, ECX, EDX, EBX, EBP, ESI and EDI, and of the frame's slots,
/// slot 0 first, of which there are at most 64.
#[derive(Clone, Copy, Debug)]
pub struct Annotation<'a> {
    pub types: &'a [Ty; 7],
    pub slots: &'a [Ty],
    pub ghost few: { length slots.now ≤ 64 },
}

impl Context {
    ghost use Rattle.tal_types.specs.Contexts.{Dead, plain};
    ghost use Rattle.tal_types.specs.Kept.{context_of, live_of};

    /// What is known where no run comes.
    #[tactic(auto, unfolding(crate::specs::Kept::context_of))]
    pub fn dead() -> Context
        ensures { context_of result ≡ Dead }
    {
        Context {
            dead: true,
            regs: [Ty::Junk; 8],
            slots: [Ty::Junk; 64],
            depth: 0,
            kind: FlagKind::Lost,
            pairs: 0,
            heads: 0,
        }
    }

    /// Types alone: those of EAX, ECX, EDX, EBX, EBP, ESI and EDI, and of the slots, slot 0 first. There
    /// are at most 64 slots.
    pub fn plain(types: &[Ty; 7], slots: &[Ty]) -> Context
        requires { length slots.now ≤ 64 }
        ensures { context_of result ≡ plain types.now slots.now }
    {
        let mut context = Context::dead();
        context.set_plain(types, slots);
        context
    }

    /// Becomes types alone.
    pub fn set_plain(&mut self, types: &[Ty; 7], slots: &[Ty])
        requires { length slots.now ≤ 64 }
        ensures { context_of self.new ≡ plain types.now slots.now }
    {
        self.dead = false;
        self.regs = [
            types[0],
            types[1],
            types[2],
            types[3],
            Ty::Junk,
            types[4],
            types[5],
            types[6],
        ];
        clear(&mut self.slots, slots.len(), self.depth as usize);
        fill(&mut self.slots, slots);
        self.depth = slots.len() as u8;
        self.kind = FlagKind::Lost;
        self.pairs = 0;
        self.heads = 0;
    }

    /// The type of a register.
    pub fn register(&self, r: Reg) -> Ty
        ensures { result ≡ (live_of self.now).regs r }
    {
        self.regs[usize::from(r.number())]
    }

    /// The types of the frame's slots, slot 0 first.
    pub fn slots(&self) -> &[Ty]
        ensures slots { result.now ≡ (live_of self.now).slots }
        ensures depth { length result.now ≡ self.now.depth }
    {
        &self.slots[..self.depth as usize]
    }
}

/// Puts the slots of a list first, where Junk stands past the last.
fn fill(all: &mut [Ty; 64], slots: &[Ty])
    requires few { length slots.now ≤ 64 }
    requires rest { (k : ℕ) → length slots.now ≤ k → slice_index_or all.old k Junk ≡ Junk }
    ensures slots { take (length slots.now) all.new ≡ slots.now }
    ensures rest { (k : ℕ) → length slots.now ≤ k → slice_index_or all.new k Junk ≡ Junk }
{
    for i in 0..slots.len() {
        all[i] = slots[i];
    }
}

/// Puts Junk from one slot on, where it stands already from another on.
fn clear(all: &mut [Ty; 64], from: usize, to: usize)
    requires to { to ≤ 64 }
    requires rest { (k : ℕ) → to ≤ k → slice_index_or all.old k Junk ≡ Junk }
    ensures { (k : ℕ) → from ≤ k → slice_index_or all.new k Junk ≡ Junk }
{
    for i in from..to {
        all[i] = Ty::Junk;
    }
}
