//! Addresses moved, compared and subtracted.

ghost use Rattle.std.specs.Prelude.{◌≡◌, pos, ◌+ℤ◌, ◌*ℤ◌};
ghost use Rattle.lt_model.specs.Memory.{move_by, compare, subtract, checked_address, same_address, related, in_elements};
ghost use Rattle.lt_mem.specs.Steps.{moved_offset, offsets_in_one};

use crate::memory::Memory;
use lt_model::{Address, Op, Ub, checked_product, checked_sum};

// How far from the start of an object of a size an address is that is moved, unless it leaves the object.
fn moved(offset: u64, count: i128, size: u64, limit: u64) -> Option<u64>
    ensures { result ≡ moved_offset limit (pos offset +ℤ (count *ℤ pos size)) }
{
    let bytes = checked_product(count, i128::from(size))?;
    let to = checked_sum(i128::from(offset), bytes)?;
    match u64::try_from(to) {
        Ok(to) if to <= limit => Some(to),
        _ => None,
    }
}

fn same_address(a: Option<Address>, b: Option<Address>) -> bool
    ensures { result ≡ same_address a b }
{
    match (a, b) {
        (None, None) => true,
        (Some(a), Some(b)) => a.block == b.block && a.offset == b.offset,
        _ => false,
    }
}

// The offsets of two addresses of one object.
fn offsets(a: Option<Address>, b: Option<Address>) -> Result<(u64, u64), Ub>
    ensures { result ≡ offsets_in_one a b }
{
    match (a, b) {
        (Some(a), Some(b)) if a.block == b.block => Ok((a.offset, b.offset)),
        _ => Err(Ub::Unrelated),
    }
}

// A relation of two addresses that may be used.
fn related(op: Op, a: Option<Address>, b: Option<Address>) -> Result<bool, Ub>
    ensures { result ≡ related op a b }
{
    match op {
        Op::Eq => Ok(same_address(a, b)),
        Op::Ne => Ok(!same_address(a, b)),
        Op::Lt => {
            let (x, y) = offsets(a, b)?;
            Ok(x < y)
        }
        Op::Le => {
            let (x, y) = offsets(a, b)?;
            Ok(x <= y)
        }
        Op::Gt => {
            let (x, y) = offsets(a, b)?;
            Ok(y < x)
        }
        Op::Ge => {
            let (x, y) = offsets(a, b)?;
            Ok(y <= x)
        }
        _ => Err(Ub::Unrelated),
    }
}

// A number of bytes as a number of elements.
fn in_elements(bytes: i128, size: u64) -> Result<i128, Ub>
    ensures { result ≡ in_elements bytes size }
{
    if size == 0 {
        return Err(Ub::Unrelated);
    }
    let size = i128::from(size);
    if bytes % size == 0 {
        Ok(bytes / size)
    } else {
        Err(Ub::Unrelated)
    }
}

impl Memory {
    // Whether an address may be used: null may be, that of an ended object may not.
    fn checked_address(&self, at: Option<Address>) -> Result<bool, Ub>
        ensures { result ≡ checked_address self.now.blocks at }
    {
        if at.is_none() {
            return Ok(true);
        }
        match self.object(at) {
            Ok(_) => Ok(true),
            Err(kind) => Err(kind),
        }
    }

    /// An address moved by a number of elements of a size in bytes, C11 6.5.6; or the kind of undefined behaviour: the address
    /// would leave its object and the place one past its end, null is moved, or the object has ended.
    pub fn move_by(
        &self,
        at: Option<Address>,
        count: i128,
        size: u64,
    ) -> Result<Option<Address>, Ub>
        ensures { result ≡ move_by self.now.blocks at count size }
    {
        let Some(from) = at else {
            return Err(Ub::Move);
        };
        let object = self.object(at)?;
        match moved(from.offset, count, size, object.size()) {
            Some(offset) => Ok(Some(Address {
                block: from.block,
                offset,
            })),
            None => Err(Ub::Move),
        }
    }

    /// A relation of two addresses, C11 6.5.8 and 6.5.9; or the kind of undefined behaviour: an object of theirs has ended, or
    /// two addresses are ordered that aren't of one object. No other operator relates addresses.
    pub fn compare(&self, op: Op, a: Option<Address>, b: Option<Address>) -> Result<bool, Ub>
        ensures { result ≡ compare self.now.blocks op a b }
    {
        self.checked_address(a)?;
        self.checked_address(b)?;
        related(op, a, b)
    }

    /// How many elements of a size in bytes the first address lies behind the second, C11 6.5.6; or the kind of undefined
    /// behaviour: an object of theirs has ended, they aren't of one object, or the bytes between are no such number.
    pub fn subtract(&self, a: Option<Address>, b: Option<Address>, size: u64) -> Result<i128, Ub>
        ensures { result ≡ subtract self.now.blocks a b size }
    {
        self.checked_address(a)?;
        self.checked_address(b)?;
        let (x, y) = offsets(a, b)?;
        in_elements(i128::from(x) - i128::from(y), size)
    }
}
