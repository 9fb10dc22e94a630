// The source of a case, put together from its base and layers and driven by the `grant` lines of the case.
use pages::Pages;
use quota::Quota;
use report::command::Entry;
use scratch::Scratch;
use script::command::{Base, Command, Layer, SourceSpec};
use script::read::Numbered;
use segments::reading::Reading;
use segments::refusal::Refusal;
use segments::source::Source;
use word_slab::Slab;

// A slab uses no more words than these.
const SLAB_WORDS: u32 = 0x1fff_ffff;

// Asks for a segment, and says what was offered and what came of it.
fn grant<S: Source>(rt: &HostRuntime, source: &mut S, minimum: u32) -> anyhow::Result<()> {
    match source.offer(minimum) {
        Some(capacity) => println!(rt; "  offered: a segment of {capacity} words")?,
        None => println!(rt; "  offered: nothing")?,
    }
    let number = source.count();
    match source.grant(minimum) {
        Ok(capacity) => println!(rt; "  granted: segment {number} of {capacity} words, all zero")?,
        Err(Refusal { minimum, fault }) => {
            println!(rt; "  refused: no segment of at least {minimum} words ({fault:?})")?
        }
    }
    Ok(())
}

// Says which segments the source has.
fn segments<S: Source>(rt: &HostRuntime, source: &S) -> anyhow::Result<()> {
    let count = source.count();
    println!(rt; "segments {count}")?;
    for g in 0..count {
        let length = source.length(g).unwrap_or(0);
        println!(rt; "segment {g} capacity {length}")?;
    }
    Ok(())
}

// What is to be done over a source, and over a source under some of the layers that a case names. A source with all its layers goes to the task
// by `alone`: each number of layers then has a way of its own, and no source is copied from one to another.
trait Task {
    fn alone<S: Source + Drop>(&self, source: S) -> anyhow::Result<()>;

    fn over<S: Source + Drop>(&self, source: S, layers: &[Layer]) -> anyhow::Result<()>;
}

// The lines of a case: each is said in words, and a grant is made of the source.
#[derive(Drop)]
struct Lines<'a> {
    rt: &'a HostRuntime,
    lines: &'a [Numbered],
}

impl Task for Lines<'_> {
    fn alone<S: Source + Drop>(&self, mut source: S) -> anyhow::Result<()> {
        let rt = self.rt;
        for numbered in self.lines {
            let entry = Entry(numbered);
            println!(rt; "{entry}")?;
            if let Command::Grant { minimum } = &numbered.command {
                grant(rt, &mut source, *minimum)?;
            }
        }
        if self.lines.iter().any(|numbered| matches!(&numbered.command, Command::Grant { .. })) {
            segments(rt, &source)?;
        }
        Ok(())
    }

    fn over<S: Source + Drop>(&self, source: S, _layers: &[Layer]) -> anyhow::Result<()> {
        self.alone(source)
    }
}

// A task under one layer more, if there is one.
#[derive(Drop)]
struct Layered<T>(T);

impl<T: Task> Task for Layered<T> {
    fn alone<S: Source + Drop>(&self, source: S) -> anyhow::Result<()> {
        self.0.alone(source)
    }

    fn over<S: Source + Drop>(&self, source: S, layers: &[Layer]) -> anyhow::Result<()> {
        match layers.split_first() {
            None => self.alone(source),
            Some((Layer::Scratch, rest)) => self.0.over(Scratch::new(source), rest),
            Some((Layer::Quota { limit }, rest)) => {
                self.0.over(Quota::new(source, u64::from(*limit)), rest)
            }
        }
    }
}

// The lines of a case over the source that it names, which has three layers at most.
pub fn run_case(rt: &HostRuntime, spec: &SourceSpec, lines: &[Numbered]) -> anyhow::Result<()> {
    let task = Layered(Layered(Layered(Lines { rt, lines })));
    let layers = spec.layers.as_slice();
    match spec.base {
        Base::Slab { words: size, step } => {
            let size = size.min(SLAB_WORDS);
            let mut words: Vec<u64> = vec![in rt.alloc(); 0; size as usize]?;
            task.over(Slab::new(words.as_mut_slice(), step), layers)
        }
        Base::Pages => task.over(Pages::new(), layers),
    }
}
