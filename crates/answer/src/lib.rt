// What a call can answer: refusals and answers, by name and in the paper's numbers.
#![tactic(auto)]

ghost use Rattle.std.specs.Prelude.{◌≡◌, Err};
ghost use Rattle.answer.specs.Refuse.{refuse_if};
ghost use Rattle.answer.specs.Numbers.{row, refusal_row};
ghost use Rattle.answer.specs.Reply.{tell, refusal_reply, reply};
ghost use Rattle.answer.specs.declared.Failure.TheVariants.{Refused};

// The refusals of documents 01 and 02 by name: those of document 01's table, those of an entry of a factor list and of its powers, then those of a sheet.
#[derive(Clone, Copy, Debug, PartialEq, Eq)]
pub enum Case {
    Empty,
    Large,
    Mismatch,
    Modulus,
    Factors,
    Coefficient,
    Room,
    Divisor,
    Exponent,
    Prime,
    Order,
    Product,
    Cut,
    Tag,
    Length,
    Missing,
    Version,
}

// What a number tells besides.
#[derive(Clone, Copy, Debug, PartialEq, Eq)]
pub enum Told {
    Nothing,
    Ring,
    RingAndPlace,
    RingAndPrime,
    Place,
}

// A row of the table of numbers.
#[derive(Clone, Copy, Debug, PartialEq, Eq)]
pub struct Row {
    pub number: u32,
    pub told: Told,
}

// By hand: ring and place beside the case, and not in its variants: `refusal_row` says once which of them a number tells.
// A refusal, with the ring and the place that it tells; 0 where it tells none. That of an entry of a factor list has the entry's place, a sheet's its offset.
#[derive(Clone, Copy, Debug, PartialEq, Eq)]
pub struct Refusal {
    pub case: Case,
    pub ring: usize,
    pub place: usize,
}

// What a check finds: nothing, or a refusal.
pub type Check = Result<(), Refusal>;

// Why a call did not do what it was asked: its pattern is singular, and has this smallest singular prime, or the call was refused.
#[derive(Clone, Copy, Debug, PartialEq, Eq)]
pub enum Failure {
    Singular { ring: usize, prime: u32 },
    Refused(Refusal),
}

impl From<Refusal> for Failure {
    ghost from_gives = { λ r f. f ≡ Refused r };

    fn from(refusal: Refusal) -> Failure {
        Failure::Refused(refusal)
    }
}

// The answer of a call that fills an output; the output stands beside it.
pub type Answer = Result<(), Failure>;

// An answer in the paper's numbers, for C and for print.
#[repr(C)]
#[derive(Clone, Copy, Default)]
pub struct Reply {
    pub number: u32,
    pub prime: u32,
    pub ring: usize,
    pub place: usize,
}

// A check that refuses where the test holds.
pub fn refuse_if(test: bool, case: Case, ring: usize, place: usize) -> Check
    ensures { result ≡ refuse_if test case ring place }
{
    if test {
        return Err(Refusal { case, ring, place });
    }
    Ok(())
}

impl Row {
    fn new(number: u32, told: Told) -> Row
        ensures { result ≡ row number told }
    {
        Row { number, told }
    }

    // What the row tells, and 0 for what it does not.
    fn tell(self, ring: usize, place: usize, prime: u32) -> Reply
        ensures { result ≡ tell self ring place prime }
    {
        let (ring, place, prime) = match self.told {
            Told::Nothing => (0, 0, 0),
            Told::Ring => (ring, 0, 0),
            Told::RingAndPlace => (ring, place, 0),
            Told::RingAndPrime => (ring, 0, prime),
            Told::Place => (0, place, 0),
        };
        Reply {
            number: self.number,
            prime,
            ring,
            place,
        }
    }
}

const SINGULAR: Row = Row {
    number: 9,
    told: Told::RingAndPrime,
};

impl Case {
    // The table of numbers.
    pub fn row(self) -> Row
        ensures { result ≡ refusal_row self }
    {
        match self {
            Case::Empty => Row::new(1, Told::Nothing),
            Case::Large => Row::new(2, Told::Nothing),
            Case::Mismatch => Row::new(3, Told::Ring),
            Case::Modulus => Row::new(4, Told::Nothing),
            Case::Factors => Row::new(5, Told::Nothing),
            Case::Coefficient => Row::new(6, Told::RingAndPlace),
            Case::Room => Row::new(7, Told::Nothing),
            Case::Divisor => Row::new(8, Told::Nothing),
            Case::Exponent => Row::new(10, Told::Place),
            Case::Prime => Row::new(11, Told::Place),
            Case::Order => Row::new(12, Told::Place),
            Case::Product => Row::new(13, Told::Nothing),
            Case::Cut => Row::new(20, Told::Place),
            Case::Tag => Row::new(21, Told::Place),
            Case::Length => Row::new(22, Told::Place),
            Case::Missing => Row::new(23, Told::Place),
            Case::Version => Row::new(24, Told::Place),
        }
    }
}

impl From<Refusal> for Reply {
    ghost from_gives = { λ refusal r. r ≡ refusal_reply refusal };

    fn from(refusal: Refusal) -> Reply {
        refusal.case.row().tell(refusal.ring, refusal.place, 0)
    }
}

impl From<Failure> for Reply {
    ghost from_gives = { λ failure r. r ≡ reply (Err failure) };

    fn from(failure: Failure) -> Reply {
        match failure {
            Failure::Singular { ring, prime } => SINGULAR.tell(ring, 0, prime),
            Failure::Refused(refusal) => Reply::from(refusal),
        }
    }
}

// The answer in the paper's numbers: 0 for done.
impl From<Answer> for Reply {
    ghost from_gives = { λ answer r. r ≡ reply answer };

    fn from(answer: Answer) -> Reply {
        match answer {
            Ok(()) => Reply::default(),
            Err(failure) => Reply::from(failure),
        }
    }
}
