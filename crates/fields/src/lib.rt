// The fields of document 01's pattern sheet: the table of tags, and the checks of one field.
#![tactic(auto)]

ghost use Rattle.std.specs.Prelude.{◌≡◌, ℕ, [], ◌∷◌, cond, not, ◌&&◌, ◌+◌, ◌<◌, ◌≤◌, ◌%◌, eqb, ltb, leb, length, is_some};
ghost use Rattle.limits.specs.Limits.{header_bytes};
ghost use Rattle.answer.specs.Refuse.{refuse_if};
ghost use Rattle.answer.specs.First.{first};
ghost use Rattle.fields.specs.Fields.{IsPart, version_of};
ghost use Rattle.fields.specs.Tags.{tags, fit, lacks, Right, Wrong};
ghost use Rattle.fields.specs.Checks.{above_tags, value_order};
ghost use Rattle.fields.specs.Kept.{number, Names, header, kept, WhenKept};

use answer::{Case, Check, Refusal, refuse_if};
use limits::{
    ENTRY_BYTES, FACTOR_BYTES, HEADER_BYTES, MODULUS_BYTES, MOST_ENTRY_BYTES, MOST_FACTOR_BYTES,
    VERSION_BYTES,
};
use octets::{byte_at, short_at};

// A bound above every tag, since a tag is one byte.
const ABOVE_TAGS: usize = 256;

// Where the value of a field lies in its sheet.
#[derive(Clone, Copy, Debug, PartialEq, Eq)]
pub struct Part {
    pub from: usize,
    pub len: usize,
}

impl Part {
    // Its bytes, where they lie.
    pub fn of(self, bytes: &[u8]) -> &[u8]
        requires { self.from + self.len ≤ length bytes.now }
        ensures { IsPart bytes.entry self result }
    {
        &bytes[self.from..self.from + self.len]
    }
}

// The first three bytes of a field. Its tag may be any byte.
#[derive(Clone, Copy, Debug, PartialEq, Eq)]
pub struct Header {
    pub tag: u8,
    pub len: usize,
}

// The tags of document 01's table.
#[derive(Clone, Copy, Debug, PartialEq, Eq)]
pub enum Tag {
    Version = 1,
    Modulus = 2,
    Factors = 3,
    Pattern = 4,
    Readings = 5,
}

// A byte that is none of the table's tags.
#[derive(Clone, Copy, Debug, PartialEq, Eq)]
pub struct UnknownTag;

impl TryFrom<u8> for Tag {
    type Error = UnknownTag;

    ghost try_from_gives = { Names };

    fn try_from(tag: u8) -> Result<Tag, UnknownTag> {
        match tag {
            1 => Ok(Tag::Version),
            2 => Ok(Tag::Modulus),
            3 => Ok(Tag::Factors),
            4 => Ok(Tag::Pattern),
            5 => Ok(Tag::Readings),
            _ => Err(UnknownTag),
        }
    }
}

// The fields that have come: the last one's tag, 0 before any as `last_tag` has it, and where each one's value lies.
// By hand: contracts say `WhenKept` of the list of fields. As the model of this struct that list could be read off the parts only where tags rise, and `with` would ask for that, which it never did.
#[derive(Clone, Copy, Debug, PartialEq, Eq)]
pub struct Fields {
    pub last: u8,
    pub version: Option<Part>,
    pub modulus: Option<Part>,
    pub factors: Option<Part>,
    pub pattern: Option<Part>,
    pub readings: Option<Part>,
}

impl Fields {
    #[tactic(auto, unfolding(crate::specs::Fields::part_of))]
    pub fn none() -> Fields
        ensures { result ≡ kept [] }
    {
        Fields {
            last: 0,
            version: None,
            modulus: None,
            factors: None,
            pattern: None,
            readings: None,
        }
    }

    // One more field has come. Of a field whose tag the table doesn't have, only the tag is kept.
    #[tactic(auto, unfolding(crate::specs::Fields::part_of))]
    pub fn with(self, tag: u8, part: Part) -> Fields
        ensures { WhenKept self (λ come. result ≡ kept (record { tag = tag; from = part.from; len = part.len } ∷ come)) }
    {
        let mut new = self;
        new.last = tag;
        match Tag::try_from(tag) {
            Ok(Tag::Version) => new.version = Some(part),
            Ok(Tag::Modulus) => new.modulus = Some(part),
            Ok(Tag::Factors) => new.factors = Some(part),
            Ok(Tag::Pattern) => new.pattern = Some(part),
            Ok(Tag::Readings) => new.readings = Some(part),
            Err(UnknownTag) => {}
        }
        new
    }

    // Whether a tag below the bound that a sheet must have has not come.
    #[tactic(auto, unfolding(crate::specs::Tags::tags))]
    fn lacks_below(self, bound: usize) -> bool
        ensures { (version : ℕ) → WhenKept self (λ come. result ≡ lacks (tags version) come bound) }
    {
        lacks(Tag::Version, self.version, bound)
            || lacks(Tag::Modulus, self.modulus, bound)
            || lacks(Tag::Factors, self.factors, bound)
            || lacks(Tag::Pattern, self.pattern, bound)
    }
}

fn lacks(tag: Tag, part: Option<Part>, bound: usize) -> bool
    ensures { result ≡ (ltb (number tag) bound && not (is_some part)) }
{
    (tag as usize) < bound && part.is_none()
}

// The header of the field at an offset, where it is whole. It judges nothing.
// By hand: an offset and no slice from there on, since `header` is stated by it, and the walk tells it in its refusals.
pub fn header_at(bytes: &[u8], at: usize) -> Option<Header>
    requires { at ≤ length bytes.now }
    ensures { result ≡ header bytes.now at }
{
    if bytes.len() - at < HEADER_BYTES {
        return None;
    }
    Some(Header {
        tag: bytes[at],
        len: short_at(bytes, at + 1),
    })
}

// "multiple of" a step, 0 to the most.
fn in_steps(len: usize, step: usize, most: usize) -> bool
    requires { 0 < step }
    ensures { result ≡ (eqb (len % step) 0 && leb len most) }
{
    len % step == 0 && len <= most
}

// Document 01's table of tags: whether the value of a field may have this length, after the fields found.
#[tactic(auto, unfolding(crate::specs::Tags::tags))]
fn suits(tag: Tag, len: usize, found: Fields) -> bool
    ensures { (version : ℕ) → WhenKept found (λ come. fit (tags version) come (number tag) len ≡ cond result Right Wrong) }
{
    match tag {
        Tag::Version => len == VERSION_BYTES,
        Tag::Modulus => len == MODULUS_BYTES,
        Tag::Factors => in_steps(len, FACTOR_BYTES, MOST_FACTOR_BYTES),
        Tag::Pattern => in_steps(len, ENTRY_BYTES, MOST_ENTRY_BYTES),
        Tag::Readings => len == found.pattern.map_or(0, |part| part.len),
    }
}

// The version that the sheet has told so far; 0 before it tells one.
pub fn version_of(bytes: &[u8], found: Fields) -> u8
    ensures { WhenKept found (λ come. result ≡ version_of bytes.now come) }
{
    match found.version {
        Some(part) => byte_at(bytes, part.from),
        None => 0,
    }
}

// The checks of a field with a whole header, in document 01's order.
// By hand: bytes and offset, since the refusals tell the offset.
#[tactic(auto, using(crate::proofs::Table::unknown_tag), unfolding(crate::specs::Checks::value_order))]
pub fn check_value(bytes: &[u8], at: usize, header: Header, found: Fields) -> Check
    requires { at + header_bytes ≤ length bytes.now }
    ensures { WhenKept found (λ come. result ≡ first (value_order bytes.now come at header.tag header.len)) }
{
    let start = at + HEADER_BYTES;
    let Ok(tag) = Tag::try_from(header.tag) else {
        return Err(Refusal {
            case: Case::Tag,
            ring: 0,
            place: at,
        });
    };
    let lacking = found.lacks_below(usize::from(header.tag));
    let fits = suits(tag, header.len, found);
    refuse_if(header.tag <= found.last, Case::Tag, 0, at)?;
    refuse_if(lacking, Case::Missing, 0, at)?;
    refuse_if(!fits, Case::Length, 0, at)?;
    refuse_if(bytes.len() - start < header.len, Case::Cut, 0, at)?;
    if tag == Tag::Version {
        refuse_if(byte_at(bytes, start) != 1, Case::Version, 0, at)?;
    }
    Ok(())
}

// The check at the end of a sheet of so many bytes.
pub fn check_end(found: Fields, end: usize) -> Check
    ensures { (version : ℕ) → WhenKept found (λ come. result ≡ refuse_if (lacks (tags version) come above_tags) Case.Missing 0 end) }
{
    refuse_if(found.lacks_below(ABOVE_TAGS), Case::Missing, 0, end)
}
