// The thin entry (document 01, "Ladder"): the board's own watch is lent, and altered where it lies.
#![tactic(auto)]

ghost use Rattle.std.specs.Prelude.{◌≡◌, IfOk};
ghost use Rattle.refusal.specs.Number.{number};
ghost use Rattle.matcher.specs.Stroke.{stroke_refusal, stroke_answer, after_stroke};

use matcher::{Matcher, Stroke};
use refusal::Refusal;
use walk::Answer;

// One stroke on a watch that is lent: the by-value core takes what lies there, and the watch it hands back is stored in its place. A byte that is
// refused leaves the watch as it was.
pub fn stroke(matcher: &mut Matcher, byte: u8) -> Result<Answer, Refusal>
    ensures verdict { number result ≡ stroke_refusal matcher.old }
    ensures answer { IfOk result (λ answer. answer ≡ stroke_answer matcher.old byte) }
    ensures matcher { matcher.new ≡ after_stroke matcher.old byte }
{
    let stroke = matcher.stroke(byte)?;
    *matcher = stroke.matcher;
    Ok(stroke.answer)
}

// The entry on a watch of one's own, handed in and back by value: for callers that lend nothing.
pub fn stroke_local(mut matcher: Matcher, byte: u8) -> Result<Stroke, Refusal>
    ensures verdict { number result ≡ stroke_refusal matcher }
    ensures answer { IfOk result (λ stroke. stroke.answer ≡ stroke_answer matcher byte) }
    ensures matcher { IfOk result (λ stroke. stroke.matcher ≡ after_stroke matcher byte) }
{
    let answer = stroke(&mut matcher, byte)?;
    Ok(Stroke { answer, matcher })
}
