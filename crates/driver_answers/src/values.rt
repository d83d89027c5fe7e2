// Cards, stages, watches, answers to a byte and racks as answers: their numbers, one behind another.
use crate::numbers::{option_numbers, tell_all, tell_word};
use fingerprint::{Fingerprint, Key};
use matcher::Matcher;
use rack::Rack;
use rack_place::Place;
use rack_report::Reports;
use signature::{Builder, PLACES, Signature};
use stage::{Mark, Progression, STAGES, Stage};
use walk::Answer;

pub fn tell_key(rt: &HostRuntime, key: Key) {
    tell_word(rt, key.number());
}

pub fn tell_print(rt: &HostRuntime, print: Fingerprint) {
    tell_word(rt, print.number());
}

fn tell_prints(rt: &HostRuntime, prints: [Fingerprint; PLACES]) {
    tell_all(rt, &prints.map(|print| print.number() as u64));
}

pub fn tell_card(rt: &HostRuntime, card: Signature) {
    tell_all(rt, &[card.length as u64, card.key.number() as u64]);
    tell_prints(rt, card.prints);
}

pub fn tell_builder(rt: &HostRuntime, builder: Builder) {
    let head = [
        builder.length as u64,
        builder.key.number() as u64,
        builder.taken as u64,
        builder.print.number() as u64,
    ];
    tell_all(rt, &head);
    tell_prints(rt, builder.prints);
}

pub fn tell_mark(rt: &HostRuntime, mark: Mark) {
    tell_all(rt, &[mark.at, mark.print.number() as u64]);
}

pub fn tell_stage(rt: &HostRuntime, stage: Stage) {
    let numbers = [
        stage.held as u64,
        stage.first.at,
        stage.first.print.number() as u64,
        stage.last.at,
        stage.last.print.number() as u64,
        stage.step.length as u64,
        stage.step.print.number() as u64,
    ];
    tell_all(rt, &numbers);
}

pub fn tell_stages(rt: &HostRuntime, stages: [Stage; STAGES]) {
    for stage in stages {
        tell_stage(rt, stage);
    }
}

pub fn tell_watch(rt: &HostRuntime, watch: Matcher) {
    tell_card(rt, watch.signature);
    tell_mark(rt, watch.now);
    tell_stages(rt, watch.stages);
}

pub fn tell_set(rt: &HostRuntime, set: Progression) {
    tell_all(rt, &[set.first, set.step as u64, set.many as u64]);
}

// The ring, how many sets count, the comparisons, and all places for sets.
pub fn tell_answer(rt: &HostRuntime, answer: Answer) {
    tell_all(rt, &option_numbers(answer.ring));
    tell_all(rt, &[answer.asides as u64, answer.comparisons as u64]);
    for set in answer.sets {
        tell_set(rt, set);
    }
}

pub fn tell_place(rt: &HostRuntime, place: Place) {
    tell_all(rt, &[place.name as u64, place.since]);
    tell_card(rt, place.signature);
    tell_stages(rt, place.stages);
}

pub fn tell_rack(rt: &HostRuntime, rack: Rack) {
    tell_key(rt, rack.key);
    tell_mark(rt, rack.now);
    for place in rack.places {
        tell_place(rt, place);
    }
}

// How many reports count, the comparisons, and all places for reports.
pub fn tell_reports(rt: &HostRuntime, reports: Reports) {
    tell_all(rt, &[reports.many as u64, reports.comparisons as u64]);
    for report in reports.reports {
        tell_word(rt, report.name as u32);
        tell_answer(rt, report.answer);
    }
}
