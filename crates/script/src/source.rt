// The source of a case: a slab or pages, and up to three layers over it.
use crate::args::Args;
use crate::command::{Base, Layer, SourceSpec};
use line::fault::{Fault, Problem};
use std::alloc::Global;

fn read_base(args: &mut Args) -> Result<Base, Problem> {
    let at = args.at;
    match args.word()? {
        "slab" => {
            let words = args.number()?;
            let step = args.number()?;
            Ok(Base::Slab { words, step })
        }
        "pages" => Ok(Base::Pages),
        _ => Err(Fault::BadSource.at(at)),
    }
}

fn read_layer(args: &mut Args) -> Result<Layer, Problem> {
    let at = args.at;
    match args.word()? {
        "scratch" => Ok(Layer::Scratch),
        "quota" => Ok(Layer::Quota {
            limit: args.number()?,
        }),
        _ => Err(Fault::BadLayer.at(at)),
    }
}

// A source has at most three layers, so it is tried three times for one; a loop without a bound would need a measure.
pub fn read_source(heap: Global, args: &mut Args) -> Result<SourceSpec, Problem> {
    let base = read_base(args)?;
    let mut layers = Vec::new(heap);
    for _ in 0..3 {
        if args.is_empty() {
            break;
        }
        layers.push(read_layer(args)?)?;
    }
    if !args.is_empty() {
        return Err(Fault::TooManyLayers.at(args.at));
    }
    Ok(SourceSpec { base, layers })
}
