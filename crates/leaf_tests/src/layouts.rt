// Classes, kinds and their words.
use object_layout::areas::word_index;
use object_layout::{ClassRow, FieldList, FieldTy, FunRow, KindRow, MethodList, Shape, Shapes};
use std::test::Fail;

// A class with a number, a reference and a method, and one below it with an array and the method overridden.
#[test]
fn class_below_another_keeps_what_stands_above(rt: HostRuntime) -> Result<(), Fail> {
    let alloc = rt.alloc();
    let (mut above, mut own) = (FieldList::new(alloc), FieldList::new(alloc));
    above.push(FieldTy::Num)?;
    above.push(FieldTy::Ref(1))?;
    own.push(FieldTy::ArrRef(0))?;
    assert!(rt; own.items() == [FieldTy::ArrRef(0)].as_slice());
    let (mut first, mut second) = (MethodList::new(alloc), MethodList::new(alloc));
    first.push(0)?;
    second.push(1)?;
    assert!(rt; second.items() == [1].as_slice());
    let root = ClassRow {
        parent: None,
        fields: above,
        methods: first,
    };
    let leaf = ClassRow {
        parent: Some(0),
        fields: own,
        methods: second,
    };
    let rows = vec![in alloc; root, leaf]?;
    let kinds = [KindRow {
        element: FieldTy::Num,
    }];
    let funs = [
        FunRow {
            sig: 0,
            address: 0x100000,
        },
        FunRow {
            sig: 0,
            address: 0x100009,
        },
    ];
    let shapes = Shapes::of(alloc, &rows, &kinds, &funs, 1)?;

    assert!(rt; shapes.below(1, 0) && !shapes.below(0, 1));
    assert!(rt; shapes.field_at(1, 12) == Some(FieldTy::ArrRef(0)));
    assert!(rt; shapes.slot_at(1, 44) == Some(0) && shapes.slot_at(1, 48) == None);
    assert!(rt; shapes.element_of(0) == Some(FieldTy::Num));
    assert!(rt; shapes.descriptor_word(0, 0) == Some(0));
    assert!(rt; shapes.need_words(Shape::Class(1), 0) == 8);
    assert!(rt; shapes.need_words(Shape::Kind(0), 5) == 12);
    for (word, want) in [
        (0, 4),
        (1, 1),
        (3, 0x200000),
        (4, 0x200100),
        (11, 0x100009),
        (12, 0),
    ] {
        assert!(rt; shapes.table_word(1, word) == Some(want), "word {word}");
    }
    Ok(())
}

#[test]
fn types_and_places_of_words(rt: HostRuntime) {
    assert!(rt; FieldTy::ArrRef(0).is_reference() && !FieldTy::Fun(0).is_reference());
    assert!(rt; word_index(44, 52) == Some(2) && word_index(44, 53) == None);
}
