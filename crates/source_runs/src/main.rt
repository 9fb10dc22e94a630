// The sources at work: offers at their edges, grants until they run dry, layers in both orders, words that were not zero.
#![tactic(auto)]

use counting::Counting;
use pages::Pages;
use quota::Quota;
use scratch::Scratch;
use segments::reading::Reading;
use segments::source::Source;
use std::io;
use word_slab::Slab;

// What is offered for each of some minima, and what a grant answers.
fn grants<S: Source, R: Print>(rt: &R, s: &mut S, minima: &[u32]) -> io::Result<()> {
    for &m in minima {
        let offer = s.offer(m);
        let granted = s.grant(m);
        println!(rt; "  {m}: offer {offer:?}, grant {granted:?}")?;
    }
    Ok(())
}

// How many words of segment `g` are not zero.
fn dirty<S: Reading>(s: &S, g: usize) -> usize {
    (0..s.length(g).unwrap_or(0))
        .filter(|w| s.read(g, *w).is_some_and(|x| x != 0))
        .count()
}

// Each segment's length, and how many of its words are not zero.
fn segments<S: Reading, R: Print>(rt: &R, s: &S) -> io::Result<()> {
    for g in 0..s.count() {
        let length = s.length(g);
        let used = dirty(s, g);
        println!(rt; "  segment {g}: {length:?}, {used} not zero")?;
    }
    Ok(())
}

// Writes 7 to word `w` of segment `g` and reads it back.
fn store<S: Source, R: Print>(rt: &R, s: &mut S, g: usize, w: usize) -> io::Result<()> {
    let written = s.write(g, w, 7);
    let read = s.read(g, w);
    println!(rt; "  write {g} {w}: {written:?}, then {read:?}")
}

// Grants 1 word until it is refused, at most 100 times.
fn exhaust<S: Source, R: Print>(rt: &R, s: &mut S) -> io::Result<()> {
    for n in 0..100u32 {
        if let Err(refusal) = s.grant(1) {
            return println!(rt; "  {n} grants, then {refusal:?}");
        }
    }
    println!(rt; "  100 grants")
}

// Grants, writes at the edges of segments, and grants again after taking back.
fn tour<S: Source, R: Print>(rt: &R, s: &mut S, minima: &[u32]) -> io::Result<()> {
    grants(rt, s, minima)?;
    store(rt, s, 0, 0)?;
    store(rt, s, 0, 256)?;
    store(rt, s, 1, 255)?;
    store(rt, s, 9, 0)?;
    segments(rt, s)?;
    s.take_back();
    let n = s.count();
    println!(rt; "  taken back: {n} segments")?;
    grants(rt, s, minima)?;
    segments(rt, s)
}

fn quota_over_scratch<S: Source + Drop, R: Print>(rt: &R, s: S) -> io::Result<()> {
    println!(rt; "a quota of 300 over scratch over a slab of 1000 with step 16")?;
    let mut pile = Quota::new(Scratch::new(s), 300);
    tour(rt, &mut pile, &[1, 45, 44, 2000])
}

fn scratch_over_quota<S: Source + Drop, R: Print>(rt: &R, s: S) -> io::Result<()> {
    println!(rt; "scratch over a quota of 300 over a slab of 1000 with step 16")?;
    let mut pile = Scratch::new(Quota::new(s, 300));
    tour(rt, &mut pile, &[256, 301, 300, 1])?;
    pile.take_back();
    grants(rt, &mut pile, &[257, 1])?;
    segments(rt, &pile)
}

// Two layers come off again, and the slab is as it was.
fn unpiled<S: Source>(s: S) -> S {
    Quota::new(Scratch::new(s), 9).into_below().into_below()
}

fn counted<S: Source + Drop, R: Print>(rt: &R, s: S) -> io::Result<()> {
    println!(rt; "counting over a slab of 1000 with step 16")?;
    let mut pile = Counting::new(s);
    grants(rt, &mut pile, &[1, 2000])?;
    store(rt, &mut pile, 0, 3)?;
    store(rt, &mut pile, 0, 3)?;
    store(rt, &mut pile, 0, 16)?;
    let (writes, grants) = (pile.writes(), pile.grants());
    let (third, fourth) = (pile.hits(3), pile.hits(4));
    println!(rt; "  {writes} writes, {grants} grants, word 3 {third:?}, word 4 {fourth:?}")
}

fn main(rt: HostRuntime) -> io::Result<()> {
    let mut words = [9u64; 100];
    println!(rt; "a slab of 100 with step 16")?;
    let mut slab = Slab::new(&mut words, 16);
    tour(&rt, &mut slab, &[0, 101, 536870912, 1, 16, 17, 52, 51, 1])?;
    println!(rt; "a slab of 100 with step 0")?;
    let mut slab = Slab::new(&mut words, 0);
    exhaust(&rt, &mut slab)?;
    println!(rt; "pages")?;
    let mut pages = Pages::new();
    tour(&rt, &mut pages, &[0, 1, 256, 257])?;
    exhaust(&rt, &mut pages)?;
    let mut words = [9u64; 1000];
    quota_over_scratch(&rt, Slab::new(&mut words, 16))?;
    scratch_over_quota(&rt, Slab::new(&mut words, 16))?;
    counted(&rt, unpiled(Slab::new(&mut words, 16)))
}
