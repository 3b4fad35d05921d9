ghost use Rattle.std.specs.Prelude.{◌≡◌, ◌≤◌, ◌++◌, codes, decimal, length, IfSome};
ghost use Rattle.trec_run.specs.Private.Columns.{AreShort, IsFrame, front_of, tail_of, whole_tag};

use crate::line::Shared;
use gathered_text::ShortText;

/// What the run lines of an answer have before the name, and behind the rank. Most lines have the score of the line
/// before, so that what stands behind the rank is put together once for the lines of a score.
#[derive(Drop)]
pub struct Frame {
    pub front: ShortText,
    pub tail: ShortText,
    pub score: u32,
    pub ending: ShortText,
}

impl Frame {
    /// Puts together what stands behind the rank in the lines of a score.
    #[inline(never)]
    pub fn end_with(&mut self, score: u32)
        requires { length self.old.tail ≤ 53 }
        ensures score { self.new.score ≡ score }
        ensures ending { self.new.ending ≡ codes " " ++ (decimal score ++ self.old.tail) }
        ensures front { self.new.front ≡ self.old.front }
        ensures tail { self.new.tail ≡ self.old.tail }
    {
        self.ending.set_numbered(score, &self.tail);
        self.score = score;
    }
}

/// The frame of the lines that share these columns, ended for the lines of a score, where its texts are short.
pub fn frame_of(shared: &Shared<'_>, score: u32) -> Option<Frame>
    ensures { IfSome result (λ frame. IsFrame frame shared.now.id.now (whole_tag shared.now)) }
{
    if !shared.are_short() {
        return None;
    }
    let tail = tail(shared);
    let ending = ending_of(score, &tail);
    Some(Frame {
        front: front(shared),
        tail,
        score,
        ending,
    })
}

/// What stands behind the rank in the lines of a score. Such a tail is a blank, a short tag and the line's end.
fn ending_of(score: u32, tail: &ShortText) -> ShortText
    requires { length tail.now ≤ 53 }
    ensures { result ≡ codes " " ++ (decimal score ++ tail.now) }
{
    let mut ending = ShortText::new();
    ending.set_numbered(score, tail);
    ending
}

fn front(shared: &Shared<'_>) -> ShortText
    requires { AreShort shared.now }
    ensures { result ≡ front_of shared.now.id.now }
{
    let mut front = ShortText::new();
    front.push(shared.id);
    front.push(b" Q0 ");
    front
}

fn tail(shared: &Shared<'_>) -> ShortText
    requires { AreShort shared.now }
    ensures { result ≡ tail_of (whole_tag shared.now) }
{
    let mut tail = ShortText::new();
    tail.push(b" ");
    tail.push(shared.tag);
    tail.push(shared.point);
    tail.push(shared.part);
    tail.push(b"\n");
    tail
}
