// Resuming (document 01, "Records"): a watch is restored from a checkpoint, in either record, under its card.
#![tactic(auto)]

ghost use Rattle.std.specs.Prelude.{◌≡◌, ◌+◌, ◌≤◌, ◌<◌, IfOk};
ghost use Rattle.ladder.specs.Prefix.{levels};
ghost use Rattle.lists.specs.Lists.{tabulate};
ghost use Rattle.refusal.specs.Number.{number};
ghost use Rattle.stage.specs.Stage.{origin, no_gap, no_stage};
ghost use Rattle.stage.specs.Stages.{stage_count};
ghost use Rattle.fields.specs.Fields.{widths, values_at};
ghost use Rattle.checkpoint_format.specs.Layout.{mark_fields, gap_fields, stage_fields, checkpoint_widths};
ghost use Rattle.checkpoint_format.specs.Places.{stage_size, longest_checkpoint};
ghost use Rattle.checkpoint_restore.specs.Layout.{mark_from, gap_from, stage_from, stage_place, same_pattern, matcher_at};
ghost use Rattle.checkpoint_restore.specs.Calls.{format_of, restore_refusal, restored_matcher, restore_taken};
ghost use Rattle.checkpoint_format.specs.declared.Format.{Format};
ghost use Rattle.checkpoint_format.specs.declared.Format.TheVariants.{Wide};

use checkpoint_format::{FIRST_AT, Format, NARROW_KIND, NOW_AT, checkpoint_size};
use fields::{Width, number_at};
use matcher::Matcher;
use record::{KEY_AT, KIND_AT, M_AT, PRINT_AT, WORD, check_head, key_at, print_at, word_at};
use refusal::Refusal;
use signature::{Signature, levels};
use stage::{Gap, Mark, STAGES, Stage};
use std::array;

// What restoring hands back: the matcher, and the bytes taken.
#[derive(Clone, Copy)]
pub struct Restored {
    pub matcher: Matcher,
    pub taken: usize,
}

// (A mark and a gap each have a reader: one for both would give their parts singly, and be no plainer.)
fn mark_at(buf: &[u8], at: usize, format: Format) -> Mark
    requires { at ≤ longest_checkpoint Wide }
    ensures { result ≡ mark_from (values_at buf.now at (widths (mark_fields format origin))) }
{
    let width = format.width();
    Mark {
        at: number_at(buf, at, width),
        print: print_at(buf, at + width.bytes()),
    }
}

fn gap_at(buf: &[u8], at: usize) -> Gap
    requires { at ≤ longest_checkpoint Wide }
    ensures { result ≡ gap_from (values_at buf.now at (widths (gap_fields no_gap))) }
{
    Gap {
        length: word_at(buf, at),
        print: print_at(buf, at + WORD),
    }
}

fn stage_at(buf: &[u8], at: usize, format: Format) -> Stage
    requires { at + stage_size format ≤ longest_checkpoint Wide }
    ensures { result ≡ stage_from (values_at buf.now at (widths (stage_fields format no_stage))) }
{
    let size = format.mark_size();
    Stage {
        held: word_at(buf, at),
        first: mark_at(buf, at + FIRST_AT, format),
        last: mark_at(buf, at + FIRST_AT + size, format),
        step: gap_at(buf, at + FIRST_AT + 2 * size),
    }
}

// Stage i of a checkpoint's record with k stages: nothing listed past stage k-1.
fn stage_place(buf: &[u8], format: Format, k: u32, i: usize) -> Stage
    requires { i < stage_count }
    ensures { result ≡ stage_place (values_at buf.now 0 (checkpoint_widths format k)) k i }
{
    if i < (k as usize) {
        stage_at(buf, format.stages_at() + format.stage_size() * i, format)
    } else {
        Stage::none()
    }
}

fn stages_at(buf: &[u8], format: Format, k: u32) -> [Stage; STAGES]
    ensures { result ≡ tabulate (stage_place (values_at buf.now 0 (checkpoint_widths format k)) k) stage_count }
{
    array::from_fn(|i| stage_place(buf, format, k, i))
}

// The matcher that a checkpoint's record makes under a signature.
fn matcher_at(buf: &[u8], format: Format, signature: Signature) -> Matcher
    ensures { result ≡ matcher_at format signature buf.now }
{
    let stages = stages_at(buf, format, levels(signature.length));
    Matcher {
        signature,
        now: mark_at(buf, NOW_AT, format),
        stages,
    }
}

// Whether a checkpoint has the signature's length, key and last fingerprint, which stand before t in both records.
fn same_pattern(buf: &[u8], signature: Signature) -> bool
    requires { levels signature.length ≤ stage_count }
    ensures { (format : Format) → result ≡ same_pattern format signature buf.now }
{
    word_at(buf, M_AT) == signature.length
        && key_at(buf, KEY_AT) == signature.key
        && print_at(buf, PRINT_AT) == signature.prints[levels(signature.length) as usize]
}

// The record that a kind says: another kind than 4 is read as 5, and the head is asked for it.
fn format_at(buf: &[u8]) -> Format
    ensures { result ≡ format_of buf.now }
{
    if number_at(buf, KIND_AT, Width::Half) == NARROW_KIND {
        Format::Narrow
    } else {
        Format::Wide
    }
}

// Restores a matcher under its signature, from a wide record or a narrow one. Refusals: 10 for the signature, those of the head, 11 other
// passage, then 10 where the length does not suit k or the matcher misfits.
pub fn restore(signature: Signature, buf: &[u8]) -> Result<Restored, Refusal>
    ensures verdict { number result ≡ restore_refusal signature buf.now }
    ensures matcher { IfOk result (λ restored. restored.matcher ≡ restored_matcher signature buf.now) }
    ensures taken { IfOk result (λ restored. restored.taken ≡ restore_taken signature buf.now) }
{
    if !signature.fits() {
        return Err(Refusal::Misfit);
    }
    let format = format_at(buf);
    check_head(buf, format.kind(), format.least())?;
    if !same_pattern(buf, signature) {
        return Err(Refusal::OtherPassage);
    }
    let taken = (word_at(buf, 0) as usize) + WORD;
    if taken != checkpoint_size(format, levels(signature.length)) {
        return Err(Refusal::Misfit);
    }
    let matcher = matcher_at(buf, format, signature);
    if !matcher.fits() {
        return Err(Refusal::Misfit);
    }
    Ok(Restored { matcher, taken })
}
