ghost use Rattle.std.specs.Prelude.{◌≡◌, ◌+◌, ◌*◌, ◌≤◌, ◌^◌, min, option_map};
ghost use Rattle.lt_model.specs.Layout.{within, rounded, resized, member_offset, with_member, no_members, extent_for, scalar_extent, pointer_extent};
ghost use Rattle.lt_table.specs.StructTables.{extent_value};

use lt_model::{DataModel, Scalar, pointer_width, width};

/// The size and the alignment of a type, in bytes.
#[derive(Clone, Copy, PartialEq, Eq, Debug)]
pub struct Extent {
    pub size: u64,
    pub alignment: u64,
}

/// Of no members.
pub fn no_members() -> Extent
    ensures { extent_value result ≡ no_members }
{
    Extent {
        size: 0,
        alignment: 1,
    }
}

// Of a scalar or a pointer of so many bits.
fn extent_for(bits: u32) -> Extent
    requires { bits ≤ 64 }
    ensures { extent_value result ≡ extent_for bits }
{
    let bytes = u64::from((bits + 7) / 8);
    Extent {
        size: bytes,
        alignment: bytes,
    }
}

/// Of a scalar.
pub fn scalar_extent(model: DataModel, ty: Scalar) -> Extent
    ensures { extent_value result ≡ scalar_extent model ty }
{
    extent_for(width(model, ty))
}

/// Of a pointer.
pub fn pointer_extent(model: DataModel) -> Extent
    ensures { extent_value result ≡ pointer_extent model }
{
    extent_for(pointer_width(model))
}

/// The next multiple of an alignment.
pub fn rounded(n: u64, alignment: u64) -> Option<u64>
    ensures { result ≡ rounded n alignment }
{
    n.checked_next_multiple_of(alignment)
}

/// Of a struct whose members end so: its size is rounded up to its alignment.
pub fn whole(members: Extent) -> Option<Extent>
    ensures { option_map extent_value result ≡ resized (extent_value members) (rounded members.size members.alignment) }
{
    Some(Extent {
        size: rounded(members.size, members.alignment)?,
        alignment: members.alignment,
    })
}

// So many times a size; a number from 2^64 counts as that.
fn times(size: u64, count: u128) -> Option<u64>
    ensures { result ≡ within (size * min count (2 ^ 64)) }
{
    let bytes = u128::from(size) * count.min(1 << 64);
    if bytes < 1 << 64 {
        Some(bytes as u64)
    } else {
        None
    }
}

/// Of so many elements.
pub fn repeated(extent: Extent, count: u128) -> Option<Extent>
    ensures { option_map extent_value result ≡ resized (extent_value extent) (within (extent.size * min count (2 ^ 64))) }
{
    Some(Extent {
        size: times(extent.size, count)?,
        alignment: extent.alignment,
    })
}

/// Where a member stands after others.
pub fn member_offset(before: Extent, member: Extent) -> Option<u64>
    ensures { result ≡ member_offset (extent_value before) (extent_value member) }
{
    rounded(before.size, member.alignment)
}

/// Members with one more behind them.
pub fn with_member(before: Extent, member: Extent) -> Option<Extent>
    ensures { option_map extent_value result ≡ with_member (extent_value before) (extent_value member) }
{
    let offset = member_offset(before, member)?;
    Some(Extent {
        size: offset.checked_add(member.size)?,
        alignment: before.alignment.max(member.alignment),
    })
}
