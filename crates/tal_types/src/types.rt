use ia32_code::Reg;
use object_layout::FieldTy;

/// What a value is. A reference is the address of an object or an array; the numbers are those of a
/// class, an array kind or a signature.
#[derive(Clone, Copy, Debug, PartialEq, Eq)]
pub enum Ty {
    /// a number of 32 bits
    Num,
    /// null, or an object of the class or of one below it
    Ref(u32),
    /// an object of the class or of one below it
    Obj(u32),
    /// null, or an array of the kind
    ArrRef(u32),
    /// an array of the kind
    Arr(u32),
    /// null, or the address of a function of the signature
    Fun(u32),
    /// the address of a function of the signature
    Code(u32),
    /// the table of the class or of one below it
    Tab(u32),
    /// the descriptor of the kind
    Desc(u32),
    /// any value but a return address
    Junk,
}

impl From<FieldTy> for Ty {
    ghost use Rattle.std.specs.Prelude.{◌≡◌};
    ghost use Rattle.tal_types.specs.Types.{of_field};

    ghost from_gives = { λ field t. t ≡ of_field field };

    #[tactic(auto, unfolding(crate::specs::Types::of_field))]
    fn from(field: FieldTy) -> Ty {
        match field {
            FieldTy::Num => Ty::Num,
            FieldTy::Ref(c) => Ty::Ref(c),
            FieldTy::ArrRef(k) => Ty::ArrRef(k),
            FieldTy::Fun(g) => Ty::Fun(g),
        }
    }
}

/// What the last operation that set the flags tells, and so which conditions a branch may use.
#[derive(Clone, Copy, Debug, PartialEq, Eq)]
pub enum FlagKind {
    /// nothing: no condition may be used
    Lost,
    /// whether two values were equal: E and NE may be used
    Eq,
    /// how two numbers compare: all conditions may be used
    Num,
    /// as Eq, and ZF is set exactly where the register holds null
    NullTest(Reg),
    /// as Num, and CF is set exactly where the first register is below the length of the array in the second
    Bound(Reg, Reg),
    /// as Eq, and ZF is set exactly where the object in the register is of the class or of one below it
    IsA(Reg, u32),
}
