/// The processor's four flags.
#[derive(Clone, Copy, Debug, PartialEq, Eq)]
pub struct FlagBits {
    /// CF, the carry flag: an unsigned sum was at least 2^32, or an unsigned difference below 0.
    pub carry: bool,
    /// ZF, the zero flag: the result was 0.
    pub zero: bool,
    /// SF, the sign flag: the result's highest bit was set.
    pub sign: bool,
    /// OF, the overflow flag: a signed result was outside -2^31 to 2^31 - 1.
    pub overflow: bool,
}
