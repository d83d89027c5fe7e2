// Parking (document 01, "Records"): a watch is saved into a lent buffer, as a checkpoint in either record.
#![tactic(auto)]

ghost use Rattle.std.specs.Prelude.{◌≡◌, ◌+◌, ◌*◌, ◌≤◌, length, IfOk};
ghost use Rattle.ladder.specs.Prefix.{levels};
ghost use Rattle.refusal.specs.Number.{number};
ghost use Rattle.stage.specs.Stages.{stage_count};
ghost use Rattle.fields.specs.Fields.{gathered, pasted, stamped};
ghost use Rattle.checkpoint_format.specs.Layout.{mark_fields, gap_fields, stage_fields, stage_fields_of, checkpoint_record};
ghost use Rattle.checkpoint_format.specs.Places.{mark_size, gap_size, stage_size, stages_place};
ghost use Rattle.checkpoint_save.specs.Calls.{save_refusal, save_used, save_buffer, behind_refusal, behind_used, behind_buffer};

use checkpoint_format::{FIRST_AT, Format, NOW_AT, checkpoint_size};
use fields::put;
use matcher::Matcher;
use record::{KEY_AT, M_AT, PRINT_AT, WORD, put_head, put_key, put_print, put_word};
use refusal::Refusal;
use signature::levels;
use stage::{Gap, Mark, Stage};

// (A mark and a gap each have a writer, here and where they are read: one for both would take their parts singly, and be no plainer.)
fn put_mark(buf: &mut [u8], at: usize, format: Format, mark: Mark)
    requires { at + mark_size format ≤ length buf.old }
    ensures { buf.new ≡ stamped buf.old at (mark_fields format mark) }
{
    let width = format.width();
    put(buf, at, width, mark.at);
    put_print(buf, at + width.bytes(), mark.print);
}

fn put_gap(buf: &mut [u8], at: usize, gap: Gap)
    requires { at + gap_size ≤ length buf.old }
    ensures { buf.new ≡ stamped buf.old at (gap_fields gap) }
{
    put_word(buf, at, gap.length);
    put_print(buf, at + WORD, gap.print);
}

// The seven fields of a stage.
fn put_stage(buf: &mut [u8], at: usize, format: Format, stage: Stage)
    requires { at + stage_size format ≤ length buf.old }
    ensures { buf.new ≡ stamped buf.old at (stage_fields format stage) }
{
    let size = format.mark_size();
    put_word(buf, at, stage.held);
    put_mark(buf, at + FIRST_AT, format, stage.first);
    put_mark(buf, at + FIRST_AT + size, format, stage.last);
    put_gap(buf, at + FIRST_AT + 2 * size, stage.step);
}

// Writes stages one behind another.
fn put_stages(buf: &mut [u8], format: Format, stages: &[Stage])
    requires { stages_place format + stage_size format * length stages.now ≤ length buf.old }
    ensures { buf.new ≡ stamped buf.old (stages_place format) (gathered (stage_fields_of format stages.now) (length stages.now)) }
{
    let from = format.stages_at();
    let size = format.stage_size();
    for (i, stage) in stages.iter().enumerate() {
        put_stage(buf, from + size * i, format, *stage);
    }
}

// Writes the checkpoint's record at the front of a buffer that has room for it. (k and the room were found by the caller.)
fn put_checkpoint(buf: &mut [u8], format: Format, matcher: Matcher, k: u32)
    requires { (k ≡ levels matcher.signature.length) × (k ≤ stage_count) × (stages_place format + stage_size format * k ≤ length buf.old) }
    ensures { buf.new ≡ pasted buf.old 0 (checkpoint_record format matcher) }
{
    let signature = matcher.signature;
    put_head(
        buf,
        (checkpoint_size(format, k) - WORD) as u32,
        format.kind(),
    );
    put_word(buf, M_AT, signature.length);
    put_key(buf, KEY_AT, signature.key);
    put_print(buf, PRINT_AT, signature.prints[k as usize]);
    put_mark(buf, NOW_AT, format, matcher.now);
    put_stages(buf, format, &matcher.stages[..k as usize]);
}

// Saves a matcher at the front of the buffer, and gives the bytes used. Refusals: 10 misfit, 18 where t is above what the record can say, 7
// no space.
pub fn save(matcher: Matcher, format: Format, buf: &mut [u8]) -> Result<usize, Refusal>
    ensures verdict { number result ≡ save_refusal format matcher buf.old }
    ensures used { IfOk result (λ used. used ≡ save_used format matcher buf.old) }
    ensures buffer { buf.new ≡ save_buffer format matcher buf.old }
{
    if !matcher.fits() {
        return Err(Refusal::Misfit);
    }
    if !format.can_say(matcher.now.at) {
        return Err(Refusal::TooWide);
    }
    let k = levels(matcher.signature.length);
    let size = checkpoint_size(format, k);
    if buf.len() < size {
        return Err(Refusal::NoSpace);
    }
    put_checkpoint(buf, format, matcher, k);
    Ok(size)
}

// The same behind the used part of the buffer, of which what is left is lent to `save`. Gives the new used length.
pub fn save_behind(
    matcher: Matcher,
    format: Format,
    buf: &mut [u8],
    used: usize,
) -> Result<usize, Refusal>
    ensures verdict { number result ≡ behind_refusal format matcher buf.old used }
    ensures used { IfOk result (λ whole. whole ≡ behind_used format matcher buf.old used) }
    ensures buffer { buf.new ≡ behind_buffer format matcher buf.old used }
{
    let from = used.min(buf.len());
    let record = save(matcher, format, &mut buf[from..])?;
    Ok(used + record)
}
