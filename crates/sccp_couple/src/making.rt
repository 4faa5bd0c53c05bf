//! Making the pair of sections of a connection request.
ghost use Rattle.std.specs.Prelude.{◌≡◌, ◌++◌, ◌∷◌, [], List, OnOk, OnErr};
ghost use Rattle.sccp_couple.specs.declared.section.Section.{Section};
ghost use Rattle.sccp_couple.specs.Sections.{with_pair};

use crate::section::Section;
use sccp_base::{OutOfMemory, PointCode, Reference};

/// Adds one item, or reports lack of memory and adds none.
fn push_one<T: Drop>(items: &mut Vec<T>, item: T) -> Result<(), OutOfMemory>
    ensures ok { OnOk result (items.new.items ≡ items.old.items ++ item ∷ []) }
    ensures err { OnErr result (items.new.items ≡ items.old.items) }
{
    items.push(item)?;
    Ok(())
}

/// Removes the last item.
fn drop_last<T: Drop>(items: &mut Vec<T>)
    ensures { (rest : List T) (last : T) → items.old.items ≡ rest ++ last ∷ [] → items.new.items ≡ rest }
{
    let _ = items.pop();
}

/// Adds two items, or reports lack of memory and adds none.
fn push_both<T: Drop>(items: &mut Vec<T>, first: T, second: T) -> Result<(), OutOfMemory>
    ensures ok { OnOk result (items.new.items ≡ (items.old.items ++ first ∷ []) ++ second ∷ []) }
    ensures err { OnErr result (items.new.items ≡ items.old.items) }
{
    push_one(items, first)?;
    if push_one(items, second).is_err() {
        drop_last(items);
        return Err(OutOfMemory);
    }
    Ok(())
}

/// Adds the two sections of a connection request, the near one first.
pub(crate) fn make_pair(
    sections: &mut Vec<Section>,
    near: Reference,
    far: Reference,
    point: PointCode,
    remote: Reference,
    to: PointCode,
) -> Result<(), OutOfMemory>
    ensures ok { OnOk result (sections.new.items ≡ with_pair near far point remote to sections.old.items) }
    ensures err { OnErr result (sections.new.items ≡ sections.old.items) }
{
    let near_section = Section {
        own: near,
        point,
        remote: Some(remote),
        other: Some(far),
        near: true,
    };
    let far_section = Section {
        own: far,
        point: to,
        remote: None,
        other: Some(near),
        near: false,
    };
    push_both(sections, near_section, far_section)
}
