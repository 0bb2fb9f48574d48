use hub_kinds::{Counters, Lent};

/// A set that a receiver got on two nights.
#[derive(Debug, Drop)]
pub struct SecondDelivery<'a> {
    /// The later night.
    pub night: Lent<'a>,
    /// The set's key.
    pub key: Lent<'a>,
    /// The last night before it that delivered the set.
    pub earlier: Lent<'a>,
}

/// An address whose numbers don't begin where they were left.
#[derive(Debug, Drop)]
pub struct NumberBreak<'a> {
    pub night: Lent<'a>,
    /// What its partner is called in that night, and the address.
    pub partner: Lent<'a>,
    pub address: Lent<'a>,
    /// The numbers that the night begins with.
    pub begun: Counters,
    /// The last night before it that knows the address, and what it calls the partner.
    pub earlier: Lent<'a>,
    pub was: Lent<'a>,
    /// The numbers that it left.
    pub left: Counters,
}

/// Why a file isn't what it must be.
#[derive(Clone, Copy, Debug, PartialEq, Eq)]
pub enum FileFault {
    /// No file of this name is given by the night.
    OfNoPartner,
    /// The night's sums don't name it.
    NotListed,
    /// It isn't there, or has another sum.
    Changed,
}

/// A file that isn't what it must be.
#[derive(Debug, Drop)]
pub struct WrongFile<'a> {
    pub night: Lent<'a>,
    pub file: Lent<'a>,
    pub fault: FileFault,
}

/// A night whose moment is before that of the night before it.
#[derive(Debug, Drop)]
pub struct MomentBack<'a> {
    pub night: Lent<'a>,
    pub moment: Lent<'a>,
    pub earlier: Lent<'a>,
    pub was: Lent<'a>,
}

/// A night whose moment is after the limit.
#[derive(Debug, Drop)]
pub struct LateMoment<'a> {
    pub night: Lent<'a>,
    pub moment: Lent<'a>,
}

/// The last night is another one than the one that is named last. Empty names mean none.
#[derive(Debug, Drop)]
pub struct LastNight<'a> {
    pub last: Lent<'a>,
    pub named: Lent<'a>,
}

/// What breaks a rule.
#[derive(Debug, Drop)]
pub enum Breach<'a> {
    DeliveredTwice(SecondDelivery<'a>),
    NumbersBreak(NumberBreak<'a>),
    File(WrongFile<'a>),
    MomentBack(MomentBack<'a>),
    LateMoment(LateMoment<'a>),
    LastNight(LastNight<'a>),
}
