// The pages of the program unmix, put into a lent buffer. Each public function writes from the buffer's start on and answers where its page ends.
#![tactic(auto)]

ghost use Rattle.std.specs.Prelude.{◌≤◌, length};
ghost use Rattle.lines.specs.Lines.{after};
ghost use Rattle.lines.specs.Puts.{Room, Puts};
ghost use Rattle.lines.specs.Writes.{Fits, Writes};
ghost use Rattle.sheet.specs.Held.{lent};
ghost use Rattle.page.specs.Outcome.{singular, inverted};
ghost use Rattle.page.specs.Page.{told_items, refused_line, refusal_line, heading, counts_line, singular_line, page};
ghost use Rattle.page.specs.Report.{text_room};

use answer::{Refusal, Told};
use lines::Text;

fn put_told(text: &mut Text<'_>, told: Told, ring: u64, place: u64)
    requires { Fits (after (told_items told ring place)) text.old }
    ensures { Writes (after (told_items told ring place)) text.old text.new }
{
    match told {
        Told::Nothing => {}
        Told::Ring | Told::RingAndPrime => text.named(b"ring", ring),
        Told::RingAndPlace => {
            text.named(b"ring", ring);
            text.named(b"at", place);
        }
        Told::Place => text.named(b"at", place),
    }
}

// `refused`, the number, and what it tells.
fn put_refused(text: &mut Text<'_>, number: u64, told: Told, ring: u64, place: u64)
    requires { Fits (refused_line number told ring place) text.old }
    ensures { Writes (refused_line number told ring place) text.old text.new }
{
    text.word(b"refused");
    text.number(number);
    put_told(text, told, ring, place);
    text.word(b"\n");
}

// The page of a refusal.
pub fn put_refusal(buffer: &mut [u8], refusal: Refusal) -> usize
    requires { text_room ≤ length buffer.old }
    ensures { Puts (refusal_line refusal) 0 buffer.old buffer.new result }
{
    let row = refusal.case.row();
    let mut text = Text::new(buffer);
    put_refused(
        &mut text,
        u64::from(row.number),
        row.told,
        refusal.ring as u64,
        refusal.place as u64,
    );
    text.end()
}

fn put_heading(text: &mut Text<'_>, n: usize, m: u32)
    requires { Fits (heading n m) text.old }
    ensures { Writes (heading n m) text.old text.new }
{
    text.word(b"ring");
    text.number(n as u64);
    text.named(b"modulus", u64::from(m));
    text.word(b"\n");
}

fn put_counts(text: &mut Text<'_>, counts: Option<&[u32]>)
    requires { Fits (counts_line (lent counts)) text.old }
    ensures { Writes (counts_line (lent counts.entry)) text.old text.new }
{
    if let Some(counts) = counts {
        text.line(b"counts", counts);
    }
}

// The page of an inverse, and of counts where there are any.
pub fn put_inverse(
    buffer: &mut [u8],
    n: usize,
    m: u32,
    inverse: &[u32],
    counts: Option<&[u32]>,
) -> usize
    requires { Room (page n m (inverted inverse.now (lent counts))) 0 buffer.old }
    ensures { Puts (page n m (inverted inverse.now (lent counts.entry))) 0 buffer.old buffer.new result }
{
    let mut text = Text::new(buffer);
    put_heading(&mut text, n, m);
    text.line(b"inverse", inverse);
    put_counts(&mut text, counts);
    text.end()
}

fn put_singular(text: &mut Text<'_>, prime: u64, w: &[u32])
    requires { Fits (singular_line prime w.now) text.old }
    ensures { Writes (singular_line prime w.now) text.old text.new }
{
    text.word(b"singular");
    text.number(prime);
    text.word(b" ");
    text.line(b"ghost", w);
}

// The page of a singular prime with its ghost.
pub fn put_ghost(buffer: &mut [u8], n: usize, m: u32, prime: u32, w: &[u32]) -> usize
    requires { Room (page n m (singular prime w.now)) 0 buffer.old }
    ensures { Puts (page n m (singular prime w.now)) 0 buffer.old buffer.new result }
{
    let mut text = Text::new(buffer);
    put_heading(&mut text, n, m);
    put_singular(&mut text, u64::from(prime), w);
    text.end()
}
