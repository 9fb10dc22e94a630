// The arena at work over each source: words found, granted and refused, objects and landing pads, zeroing, going back to a mark.
#![tactic(auto)]

use arena::BuilderArena;
use effects::words::write_word;
use layout::zeroing::zero_object;
use pages::Pages;
use quota::Quota;
use scratch::Scratch;
use segments::reading::Reading;
use segments::source::Source;
use std::io;
use table::SegmentTable;
use walk::spot::Spot;
use word_slab::Slab;

// A run of `n` zero words.
fn show_zeros<R: Print>(rt: &R, n: usize) -> io::Result<()> {
    if n == 0 {
        return Ok(());
    }
    print!(rt; " 0*{n}")
}

// The words of segment `g`, in hex.
fn show_words<S: Source, R: Print>(rt: &R, s: &S, g: usize) -> io::Result<()> {
    let mut zeros: usize = 0;
    for w in 0..s.length(g).unwrap_or(0) {
        let x = s.read(g, w).unwrap_or(0);
        if x == 0 {
            zeros = zeros.saturating_add(1);
        } else {
            show_zeros(rt, zeros)?;
            print!(rt; " {x:016x}")?;
            zeros = 0;
        }
    }
    show_zeros(rt, zeros)
}

// An arena at work, and its table as it was when the mark was set.
#[derive(Drop)]
struct Work<'a, S: Source, R: Print> {
    rt: &'a R,
    arena: &'a mut BuilderArena<S>,
    mark: SegmentTable,
}

impl<S: Source, R: Print> Work<'_, S, R> {
    // `n` words anywhere.
    fn anywhere(&mut self, n: u32) -> io::Result<()> {
        let r = self.arena.allocate_anywhere(n);
        println!(self.rt; "  {n} anywhere: {r:?}")
    }

    // An object of `n` words for a slot in segment `g`.
    fn place(&mut self, g: usize, n: u32) -> io::Result<()> {
        let r = self.arena.place(g, n);
        println!(self.rt; "  {n} for a slot in {g}: {r:?}")
    }

    // A landing pad for a child in segment `g`.
    fn pad(&mut self, g: usize) -> io::Result<()> {
        let r = self.arena.place_pad(g);
        println!(self.rt; "  a pad in {g}: {r:?}")
    }

    // Puts `x` into word `w` of segment `g`.
    fn write(&mut self, g: usize, w: usize, x: u64) {
        let spot = Spot {
            segment: g,
            word: w,
        };
        write_word(self.arena, spot, x);
    }

    // Zeroes the object that word `w` of segment `g` points to.
    fn zero(&mut self, g: usize, w: usize) -> io::Result<()> {
        let slot = Spot {
            segment: g,
            word: w,
        };
        zero_object(&mut self.arena.source, slot);
        println!(self.rt; "  zero what {g} {w} reaches")
    }

    // Sets the mark.
    fn mark(&mut self) -> io::Result<()> {
        self.mark = self.arena.table;
        println!(self.rt; "  mark")
    }

    // Goes back to the mark.
    fn back(&mut self) -> io::Result<()> {
        self.arena.roll_back(&self.mark);
        println!(self.rt; "  back")
    }

    // One word after another until there is no space, at most 100 times.
    fn exhaust(&mut self) -> io::Result<()> {
        for n in 0..100u32 {
            if let Err(no_space) = self.arena.allocate_anywhere(1) {
                return println!(self.rt; "  {n} times a word, then {no_space:?}");
            }
        }
        println!(self.rt; "  100 times a word")
    }

    // Each segment: the words allocated, and all its words.
    fn show(&self) -> io::Result<()> {
        for g in 0..self.arena.table.count() {
            let allocated = self.arena.table.allocated(g);
            print!(self.rt; "  segment {g}, {allocated} allocated:")?;
            show_words(self.rt, &self.arena.source, g)?;
            println!(self.rt; "")?;
        }
        Ok(())
    }
}

// Makes some steps on an arena over `source`.
fn run<S: Source + Drop, R: Print, F: FnOnce(&mut Work<'_, S, R>) -> io::Result<()>>(
    rt: &R,
    source: S,
    steps: F,
) -> io::Result<()>
    requires { F.IsAlwaysCallable steps }
{
    let mut arena = BuilderArena {
        source,
        table: SegmentTable::new(),
    };
    let done = steps(&mut Work {
        rt,
        arena: &mut arena,
        mark: SegmentTable::new(),
    });
    let BuilderArena { source, table } = arena;
    done
}

fn over_slab<S: Source, R: Print>(work: &mut Work<'_, S, R>) -> io::Result<()> {
    work.anywhere(1)?;
    work.place(0, 3)?;
    work.anywhere(2)?;
    work.write(0, 0, 0x0002000100000000);
    work.write(0, 1, 0x2a);
    work.write(0, 4, 0x11);
    work.write(0, 5, 0x22);
    work.place(0, 1)?;
    work.write(0, 2, 0x0000000100000002);
    work.write(1, 0, 0x0000002a00000001);
    work.write(1, 1, 0x6b6f6f52);
    work.anywhere(1)?;
    work.write(1, 2, 0x33);
    work.anywhere(7)?;
    work.write(2, 0, 1);
    work.write(2, 6, 7);
    work.pad(2)?;
    work.write(0, 3, 0x000000010000001e);
    work.write(1, 3, 0x0000000200000002);
    work.write(1, 4, 0x0000003d00000001);
    work.show()?;
    work.mark()?;
    work.anywhere(2)?;
    work.write(3, 0, 0x44);
    work.write(3, 1, 0x55);
    work.anywhere(1)?;
    work.write(1, 5, 0x66);
    work.anywhere(5)?;
    work.write(4, 4, 0x77);
    work.place(2, 4)?;
    work.place(2, 3)?;
    work.write(3, 2, 0x88);
    work.pad(4)?;
    work.pad(4)?;
    work.show()?;
    work.back()?;
    work.show()?;
    work.zero(0, 0)?;
    work.show()
}

fn over_pages<S: Source, R: Print>(work: &mut Work<'_, S, R>) -> io::Result<()> {
    work.anywhere(1)?;
    work.anywhere(257)?;
    work.place(0, 255)?;
    work.write(0, 0, 0x000007fe00000001);
    work.place(0, 2)?;
    work.write(0, 255, 0x0000000100000002);
    work.write(1, 0, 0x0000000200000000);
    work.write(1, 1, 0x11);
    work.write(1, 2, 0x22);
    work.pad(0)?;
    work.write(1, 3, 0x33);
    work.write(1, 4, 0x44);
    work.place(1, 256)?;
    work.mark()?;
    work.anywhere(252)?;
    work.write(2, 251, 0x55);
    work.anywhere(251)?;
    work.write(1, 255, 0x66);
    work.show()?;
    work.back()?;
    work.zero(0, 0)?;
    work.show()
}

fn over_scratch<S: Source, R: Print>(work: &mut Work<'_, S, R>) -> io::Result<()> {
    work.anywhere(1)?;
    work.place(0, 5)?;
    work.place(0, 1)?;
    work.write(0, 0, 0x0000002700000001);
    work.write(0, 1, 0x0001000100000008);
    work.write(0, 2, 0x2a);
    work.write(0, 3, 0x0000002a00000009);
    work.write(0, 4, 0x2b);
    work.write(0, 5, 0x00000000fffffffc);
    work.write(0, 6, 0x6b6f6f52);
    work.anywhere(250)?;
    work.write(1, 249, 0x11);
    work.anywhere(249)?;
    work.write(0, 255, 0x22);
    work.mark()?;
    work.place(0, 6)?;
    work.write(2, 0, 0x33);
    work.place(0, 5)?;
    work.write(1, 255, 0x44);
    work.anywhere(257)?;
    work.show()?;
    work.back()?;
    work.zero(0, 0)?;
    work.show()
}

fn quota_over<S: Source + Drop, R: Print>(rt: &R, s: S) -> io::Result<()> {
    println!(rt; "a quota of 20 over a slab of 40 with step 8")?;
    run(rt, Quota::new(s, 20), |work| {
        work.anywhere(1)?;
        work.write(0, 0, 0x0000003500000001);
        work.mark()?;
        work.place(0, 6)?;
        work.write(0, 6, 0x11);
        work.place(0, 8)?;
        work.write(1, 0, 0x22);
        work.write(1, 8, 0x33);
        work.anywhere(1)?;
        work.anywhere(1)?;
        work.pad(1)?;
        work.anywhere(24)?;
        work.show()?;
        work.back()?;
        work.show()?;
        work.anywhere(8)?;
        work.show()
    })
}

fn quota_over_scratch<S: Source + Drop, R: Print>(rt: &R, s: S) -> io::Result<()> {
    println!(rt; "a quota of 300 over scratch over a slab of 100 with step 16")?;
    run(rt, Quota::new(Scratch::new(s), 300), |work| {
        work.anywhere(1)?;
        work.place(0, 255)?;
        work.place(0, 15)?;
        work.write(0, 0, 0x000007fe00000001);
        work.write(0, 255, 0x0000000100000002);
        work.write(1, 0, 0x0000007d00000001);
        work.write(1, 15, 0x11);
        work.pad(0)?;
        work.write(2, 1, 0x22);
        work.place(0, 14)?;
        work.place(0, 13)?;
        work.write(2, 15, 0x33);
        work.anywhere(69)?;
        work.show()?;
        work.zero(0, 0)?;
        work.show()
    })
}

fn main(rt: HostRuntime) -> io::Result<()> {
    let mut words = [9u64; 100];
    println!(rt; "a slab of 100 with step 0")?;
    run(&rt, Slab::new(&mut words, 0), |work| work.exhaust())?;
    let mut words = [9u64; 31];
    println!(rt; "a slab of 31 with step 6")?;
    run(&rt, Slab::new(&mut words, 6), over_slab)?;
    println!(rt; "pages")?;
    run(&rt, Pages::new(), over_pages)?;
    println!(rt; "scratch over pages")?;
    run(&rt, Scratch::new(Pages::new()), over_scratch)?;
    let mut words = [9u64; 40];
    quota_over(&rt, Slab::new(&mut words, 8))?;
    let mut words = [9u64; 100];
    quota_over_scratch(&rt, Slab::new(&mut words, 16))
}
