use ia32_code::{Inst, Mem, Operand, Reg};
use object_layout::{FieldTy, Shapes};
use std::alloc::Global;
use std::test::Fail;
use tal_flow::{Edges, Place, Rule, flow, is_entry, pass, place_of};
use tal_types::{Annotation, Context, ImageView, Mark, Sig, Span, Ty, entry_context};

const START: u32 = 0x100000;

const SIG: Sig = Sig {
    params: [Ty::Junk; 7],
    result: Ty::Num,
};

/// An image of one function of 64 bytes with one block, where nothing is known, and one static.
#[derive(Drop)]
struct Small {
    shapes: Shapes,
    block: u32,
}

impl ImageView for Small {
    ghost use Rattle.std.specs.Prelude.{[], ◌∷◌, None, Some, ◌==◌, ◌&&◌, nat_le, nat_lt, if◌then◌else◌};
    ghost use Rattle.object_layout.specs.declared.rows.FieldTy.TheVariants.{Num as NumField};
    ghost use Rattle.tal_types.specs.declared.types.Ty.TheVariants.{Num, Junk};
    ghost use Rattle.tal_types.specs.Contexts.{plain};

    ghost shown = { λ v. record {
      shapes = v.shapes;
      statics = NumField ∷ [];
      sig = λ s. if s == 0 then Some (record { params = Junk ∷ Junk ∷ Junk ∷ Junk ∷ Junk ∷ Junk ∷ Junk ∷ []; result = Num }) else None;
      function_at = λ a. if a == 0x100000 then Some 0 else None;
      function_of = λ a. if nat_le 0x100000 a && nat_lt a 0x100040 then Some (record { start = 0x100000; end = 0x100040; sig = 0 }) else None;
      block_at = λ a. if a == v.block then Some (plain (Junk ∷ Junk ∷ Junk ∷ Junk ∷ Junk ∷ Junk ∷ Junk ∷ []) []) else None;
      mark_at = λ a. None;
      data_kind = λ d. None;
    } };

    fn shapes(&self) -> &Shapes {
        self.shapes.meets_laws();
        &self.shapes
    }

    fn statics(&self) -> &[FieldTy] {
        &[FieldTy::Num]
    }

    fn sig(&self, s: u32) -> Option<Sig> {
        if s == 0 { Some(SIG) } else { None }
    }

    fn function_at(&self, address: u32) -> Option<u32> {
        if address == START { Some(0) } else { None }
    }

    fn function_of(&self, pc: u32) -> Option<Span> {
        if pc >= START && pc < START + 64 {
            Some(Span {
                start: START,
                end: START + 64,
                sig: 0,
            })
        } else {
            None
        }
    }

    fn block_at(&self, pc: u32) -> Option<Context> {
        if pc == self.block {
            Some(Context::plain(&[Ty::Junk; 7], &[]))
        } else {
            None
        }
    }

    fn annotation_at(&self, pc: u32) -> Option<Annotation<'_>> {
        if pc == self.block {
            Some(Annotation {
                types: &[Ty::Junk; 7],
                slots: &[],
            })
        } else {
            None
        }
    }

    fn mark_at(&self, _pc: u32) -> Option<Mark> {
        None
    }

    fn data_kind(&self, _d: u32) -> Option<u32> {
        None
    }
}

fn one_function(alloc: Global) -> Result<Small, Fail> {
    Ok(Small {
        shapes: Shapes::of(alloc, &[], &[], &[], 0)?,
        block: START + 3,
    })
}

#[test]
fn jump_goes_to_its_block_alone(rt: HostRuntime) -> Result<(), Fail> {
    let image = one_function(rt.alloc())?;
    let mut context = entry_context(&SIG);
    let before = context;
    assert_eq!(rt;
        flow(&image, &mut context, START, &Inst::Jmp(1), 2).ok(),
        Some(Edges {
            branch: Some((START + 3, before)),
            falls: false
        })
    );
    assert_eq!(rt; context.dead, true);
    Ok(())
}

#[test]
fn refused_instruction_leaves_the_context(rt: HostRuntime) -> Result<(), Fail> {
    let image = one_function(rt.alloc())?;
    let mut context = entry_context(&SIG);
    let before = context;
    let leave = flow(&image, &mut context, START, &Inst::Ret, 1).err();
    assert_eq!(rt; leave, Some(Rule(13)));
    assert_eq!(rt; context, before);
    Ok(())
}

#[test]
fn number_passes_and_is_known(rt: HostRuntime) -> Result<(), Fail> {
    let image = one_function(rt.alloc())?;
    let mut context = entry_context(&SIG);
    let load = Inst::Mov {
        dst: Operand::R(Reg::Eax),
        src: Operand::I(7),
    };
    assert_eq!(rt; pass(&image, &mut context, START, &load, 5), None);
    let eax = context.regs[0];
    assert_eq!(rt; eax, Ty::Num);
    assert_eq!(rt; pass(&image, &mut context, START + 5, &Inst::Ret, 1), None);
    Ok(())
}

#[test]
fn entries_stand_at_every_16th_byte(rt: HostRuntime) -> Result<(), Fail> {
    for (address, there) in [
        (0xFF0, false),
        (0x1000, true),
        (0x1008, false),
        (0x10A0, true),
        (0x10B0, false),
    ] {
        assert_eq!(rt; is_entry(address), there, "{address:X}");
    }
    Ok(())
}

#[test]
fn statics_are_places(rt: HostRuntime) -> Result<(), Fail> {
    let shapes = Shapes::of(rt.alloc(), &[], &[], &[], 0)?;
    let at = |disp: u32| Mem {
        base: None,
        index: None,
        scale: 0,
        disp,
    };
    let context = entry_context(&SIG);
    let statics = [FieldTy::Ref(1)];
    assert_eq!(rt;
        place_of(&shapes, &statics, &context, &at(0x300000)),
        Some(Place::Whole(Ty::Ref(1)))
    );
    assert_eq!(rt; place_of(&shapes, &statics, &context, &at(0x300004)), None);
    Ok(())
}
