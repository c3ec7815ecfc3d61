// A checked image with the quick forms of its instructions, each kept when it is first reached.
ghost use Rattle.std.specs.Prelude.{◌≡◌, ◌≤◌, ◌+◌, IfOk, length};
ghost use Rattle.object_layout.specs.Areas.{code_start};
ghost use Rattle.tal_checker.specs.WellTyped.{WellTyped};
ghost use Rattle.kernel_machine.specs.Prepared.{ReadyTells};

use no_memory::NoMemory;
use object_layout::areas::CODE_START;
use quick_step::Quick;
use std::alloc::Global;
use std::marker::Model;
use tal_checker::Checked;
use tal_image::Image;

/// What is kept for an address: the quick form of its instruction, and the length of its spelling. `Full` is nothing.
#[derive(Clone, Copy, Drop)]
pub(crate) struct Ready {
    pub(crate) quick: Quick,
    pub(crate) len: u8,
}

/// A checked image, with what is kept for each byte of its code.
#[derive(Drop)]
pub(crate) struct Prepared {
    checked: Checked,
    all: Vec<Ready>,
}

impl Model for Prepared {
    ghost use Rattle.tal_checker.specs.Accepted.{CheckedParts};
    ghost use Rattle.kernel_machine.specs.Prepared.{AllTell};

    ghost Value = { CheckedParts };

    ghost view = { λ p. p.checked };

    ghost invariant = { λ p. AllTell p.checked.image p.all.items };
}

impl Prepared {
    /// Nothing is kept at first.
    pub(crate) fn new(alloc: Global, checked: Checked) -> Result<Prepared, NoMemory>
        ensures { IfOk result (λ p. p ≡ checked) }
    {
        let nothing = Ready {
            quick: Quick::Full,
            len: 0,
        };
        let count = checked.image().code().len() + 1;
        let all = vec![in alloc; nothing; count]?;
        Ok(Prepared { checked, all })
    }

    /// The checked image.
    pub(crate) fn checked(&self) -> &Checked
        ensures { result.now ≡ self.now }
    {
        &self.checked
    }

    /// The image.
    pub(crate) fn image(&self) -> &Image
        ensures value { result.now ≡ self.now.image }
        ensures typed { WellTyped self.now.image }
    {
        self.checked.image()
    }

    /// What is kept for an address.
    #[inline(always)]
    pub(crate) fn ready(&self, pc: u32) -> &Ready
        requires low { code_start ≤ pc }
        requires inside { pc ≤ code_start + length self.now.image.code }
        ensures { ReadyTells self.now.image pc result.now }
    {
        &self.all[(pc - CODE_START) as usize]
    }

    /// Keeps the quick form of the instruction at an address.
    pub(crate) fn keep(&mut self, pc: u32, ready: Ready)
        requires low { code_start ≤ pc }
        requires inside { pc ≤ code_start + length self.old.image.code }
        requires tells { ReadyTells self.old.image pc ready }
        ensures { self.new ≡ self.old }
    {
        self.all[(pc - CODE_START) as usize] = ready;
    }
}
