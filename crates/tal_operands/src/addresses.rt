// The terms of an operand in memory.
ghost use Rattle.std.specs.Prelude.{◌≡◌, ◌<◌, ◌^◌, IfSome};
ghost use Rattle.tal_names.specs.Declarations.{names_shown};
ghost use Rattle.tal_operands.specs.Addresses.{word, no_terms, with_unscaled, factor_scale, with_scaled, with_bytes, with_static, with_term, terms_address};

use ia32_code::Reg;
use tal_names::ModuleNames;
use tal_syntax::Term;

/// What the terms of an operand in memory make.
#[derive(Clone, Copy, Debug, PartialEq, Eq, Drop)]
pub struct Address {
    pub base: Option<Reg>,
    pub index: Option<Reg>,
    /// 0 to 3: the index counts two to this power.
    pub scale: u8,
    /// Whether there are more registers than a base and an index.
    pub crowded: bool,
    /// The sum of the numbers and the bytes of members, modulo 2^32.
    pub disp: u32,
    /// Whether there is a number or the byte of a member.
    pub counted: bool,
    /// The static, 0 where its name is not declared.
    pub place: Option<u32>,
    /// Whether there are two statics.
    pub twice: bool,
    /// Whether a name is not declared.
    pub unknown: bool,
}

/// The word of a number that is written: the number modulo 2^32.
pub(crate) fn word(number: i64) -> u32
    ensures { result ≡ word number }
{
    (number.cast_unsigned() % 0x1_0000_0000) as u32
}

// Two to the power of the scale is the factor.
#[tactic(auto, unfolding(crate::specs::Addresses::factor_scale))]
fn scale_of(factor: u8) -> u8
    ensures { result ≡ factor_scale factor }
{
    match factor {
        2 => 1,
        4 => 2,
        8 => 3,
        _ => 0,
    }
}

impl Address {
    // No terms.
    fn empty() -> Address
        ensures { result ≡ no_terms }
    {
        Address {
            base: None,
            index: None,
            scale: 0,
            crowded: false,
            disp: 0,
            counted: false,
            place: None,
            twice: false,
            unknown: false,
        }
    }

    // A register more. The first is the base, one other the index.
    #[tactic(auto, unfolding(crate::specs::Addresses::with_unscaled))]
    fn with_register(self, reg: Reg) -> Address
        ensures { result ≡ with_unscaled self reg }
    {
        if self.base.is_none() {
            Address {
                base: Some(reg),
                ..self
            }
        } else if self.index.is_none() {
            Address {
                index: Some(reg),
                ..self
            }
        } else {
            Address {
                crowded: true,
                ..self
            }
        }
    }

    // A register with a factor more: the index.
    #[tactic(auto, unfolding(crate::specs::Addresses::with_scaled))]
    fn with_scaled(self, reg: Reg, factor: u8) -> Address
        ensures { result ≡ with_scaled self reg factor }
    {
        if self.index.is_none() {
            Address {
                index: Some(reg),
                scale: scale_of(factor),
                ..self
            }
        } else {
            Address {
                crowded: true,
                ..self
            }
        }
    }

    // So many bytes more, where what names them is declared.
    #[tactic(auto, unfolding(crate::specs::Addresses::with_bytes))]
    fn with_bytes(self, bytes: Option<u64>) -> Address
        requires { IfSome bytes (λ n. n < 2 ^ 38) }
        ensures { result ≡ with_bytes self bytes }
    {
        match bytes {
            None => Address {
                counted: true,
                unknown: true,
                ..self
            },
            Some(number) => Address {
                counted: true,
                disp: ((u64::from(self.disp) + number) % 0x1_0000_0000) as u32,
                ..self
            },
        }
    }

    // A static more, where it is declared.
    #[tactic(auto, unfolding(crate::specs::Addresses::with_static))]
    fn with_static(self, place: Option<u32>) -> Address
        ensures { result ≡ with_static self place }
    {
        let twice = self.twice || self.place.is_some();
        match place {
            None => Address {
                twice,
                place: Some(0),
                unknown: true,
                ..self
            },
            Some(number) => Address {
                twice,
                place: Some(number),
                ..self
            },
        }
    }

    // A term more.
    #[tactic(auto, unfolding(crate::specs::Addresses::with_term))]
    fn with_term(self, names: &ModuleNames, term: &Term) -> Address
        ensures { result ≡ with_term (names_shown names.now) self term.now }
    {
        match term {
            Term::Register(reg) => self.with_register(*reg),
            Term::Scaled(reg, factor) => self.with_scaled(*reg, *factor),
            Term::Number(number) => self.with_bytes(Some(u64::from(word(*number)))),
            Term::FieldByte(class, field) => {
                self.with_bytes(match names.classes.number(class.bytes()) {
                    Some(class) => names.field_byte(class, field.bytes()),
                    None => None,
                })
            }
            Term::MethodByte(class, method) => {
                self.with_bytes(match names.classes.number(class.bytes()) {
                    Some(class) => names.method_byte(class, method.bytes()),
                    None => None,
                })
            }
            Term::DisplayByte(class) => {
                self.with_bytes(match names.classes.number(class.bytes()) {
                    Some(class) => Some(u64::from(names.display_byte(class))),
                    None => None,
                })
            }
            Term::StaticAt(name) => self.with_static(names.statics.number(name.bytes())),
        }
    }

    /// What the terms make, from left to right.
    #[tactic(auto, using(crate::proofs::Steps::here), unfolding(crate::specs::Addresses::with_terms))]
    pub(crate) fn of(names: &ModuleNames, terms: &[Term]) -> Address
        ensures { result ≡ terms_address (names_shown names.now) terms.now }
    {
        let mut address = Address::empty();
        for term in terms {
            address = address.with_term(names, term);
        }
        address
    }
}
