// What is shown of a number is read back as the same number: the function here shows its argument and reads that.
ghost use Rattle.std.specs.Prelude.{◌≡◌, IfOk, Ok};

use crate::decimal::{Decimal, NumberFault, read_number};
use std::alloc::{AllocError, Global};

pub fn reread<T: Decimal>(heap: Global, n: T) -> Result<Result<T, NumberFault>, AllocError>
    ensures { IfOk result (λ again. again ≡ Ok n) }
{
    n.in_range();
    let text = n.to_string(heap)?;
    Ok(read_number(text.as_str()))
}
