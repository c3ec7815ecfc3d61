use ia32_code::Reg;
use object_layout::{ClassRow, FieldList, FieldTy, MethodList, Shapes};
use std::alloc::Global;
use std::test::Fail;
use tal_types::{
    Annotation, Context, FlagKind, ImageView, Mark, Sig, Span, Ty, below_annotation, context_below,
    entry_context, sub, types_fit,
};

fn two_classes(alloc: Global) -> Result<Shapes, Fail> {
    let root = ClassRow {
        parent: None,
        fields: FieldList::new(alloc),
        methods: MethodList::new(alloc),
    };
    let leaf = ClassRow {
        parent: Some(0),
        fields: FieldList::new(alloc),
        methods: MethodList::new(alloc),
    };
    let rows = vec![in alloc; root, leaf]?;
    Ok(Shapes::of(alloc, &rows, &[], &[], 0)?)
}

#[test]
fn types_are_below_by_the_table(rt: HostRuntime) -> Result<(), Fail> {
    let shapes = two_classes(rt.alloc())?;
    for (t, u, want) in [
        (Ty::Obj(1), Ty::Ref(0), true),
        (Ty::Obj(0), Ty::Ref(1), false),
        (Ty::Ref(1), Ty::Obj(0), false),
        (Ty::Tab(1), Ty::Tab(0), true),
        (Ty::Obj(7), Ty::Obj(7), true),
        (Ty::Arr(2), Ty::ArrRef(2), true),
        (Ty::ArrRef(2), Ty::Arr(2), false),
        (Ty::Code(3), Ty::Fun(3), true),
        (Ty::Code(3), Ty::Fun(4), false),
        (Ty::Num, Ty::Junk, true),
        (Ty::Junk, Ty::Num, false),
    ] {
        assert_eq!(rt; sub(&shapes, t, u), want, "{t:?} below {u:?}");
    }
    Ok(())
}

#[test]
fn contexts_are_below_with_more_pairs(rt: HostRuntime) -> Result<(), Fail> {
    let shapes = two_classes(rt.alloc())?;
    let sig = Sig {
        params: [Ty::Num; 7],
        result: Ty::Num,
    };
    let first = entry_context(&sig);
    let (eax, esp) = (first.regs[0], first.regs[4]);
    assert_eq!(rt; (eax, esp), (Ty::Num, Ty::Junk));
    assert_eq!(rt; first, Context::plain(&sig.params, &[]));

    let mut more = first;
    more.pairs = 1;
    more.kind = FlagKind::Bound(Reg::Eax, Reg::Eax);
    assert_eq!(rt; context_below(&shapes, &more, &first), true);
    assert_eq!(rt; context_below(&shapes, &first, &more), false);
    assert_eq!(rt; context_below(&shapes, &Context::dead(), &first), true);
    assert_eq!(rt; context_below(&shapes, &first, &Context::dead()), false);
    assert_eq!(rt;
        context_below(&shapes, &first, &Context::plain(&sig.params, &[Ty::Junk])),
        false
    );
    Ok(())
}

#[test]
fn context_becomes_types_alone(rt: HostRuntime) -> Result<(), Fail> {
    let shapes = two_classes(rt.alloc())?;
    let types = [
        Ty::Obj(1),
        Ty::Num,
        Ty::Junk,
        Ty::Junk,
        Ty::Junk,
        Ty::Junk,
        Ty::Fun(3),
    ];
    let slots = [Ty::Num, Ty::Junk];
    let mut context = Context::plain(&[Ty::Num; 7], &[Ty::Num; 3]);
    context.set_plain(&types, &slots);
    assert_eq!(rt; context, Context::plain(&types, &slots));
    assert_eq!(rt; context.register(Reg::Edi), Ty::Fun(3));

    let mut wider = types;
    wider[0] = Ty::Ref(0);
    let block = Annotation {
        types: &wider,
        slots: &[Ty::Junk, Ty::Junk],
    };
    assert_eq!(rt; types_fit(&shapes, &context, &wider), true);
    assert_eq!(rt; types_fit(&shapes, &context, &[Ty::Num; 7]), false);
    assert_eq!(rt; below_annotation(&shapes, &context, &block), true);
    let block = Annotation {
        types: &wider,
        slots: &[],
    };
    assert_eq!(rt; below_annotation(&shapes, &context, &block), false);
    Ok(())
}

/// An image that has classes alone.
#[derive(Drop)]
struct ClassesAlone {
    shapes: Shapes,
}

impl ImageView for ClassesAlone {
    ghost use Rattle.std.specs.Prelude.{[], None};

    ghost shown = { λ v. record {
      shapes = v.shapes;
      statics = [];
      sig = λ s. None;
      function_at = λ a. None;
      function_of = λ a. None;
      block_at = λ a. None;
      mark_at = λ a. None;
      data_kind = λ d. None;
    } };

    fn shapes(&self) -> &Shapes {
        self.shapes.meets_laws();
        &self.shapes
    }

    fn statics(&self) -> &[FieldTy] {
        &[]
    }

    fn sig(&self, _s: u32) -> Option<Sig> {
        None
    }

    fn function_at(&self, _address: u32) -> Option<u32> {
        None
    }

    fn function_of(&self, _pc: u32) -> Option<Span> {
        None
    }

    fn block_at(&self, _pc: u32) -> Option<Context> {
        None
    }

    fn annotation_at(&self, _pc: u32) -> Option<Annotation<'_>> {
        None
    }

    fn mark_at(&self, _pc: u32) -> Option<Mark> {
        None
    }

    fn data_kind(&self, _d: u32) -> Option<u32> {
        None
    }
}

#[test]
fn image_of_classes_alone_shows_them(rt: HostRuntime) -> Result<(), Fail> {
    let image = ClassesAlone {
        shapes: two_classes(rt.alloc())?,
    };
    assert_eq!(rt; image.shapes().below(1, 0), true);
    assert_eq!(rt; image.statics().len(), 0);
    assert_eq!(rt; image.sig(0), None);
    Ok(())
}
