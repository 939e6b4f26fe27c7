ghost use Rattle.std.specs.Prelude.{◌≡◌, ℕ, ◌+◌, ◌*◌, ◌<◌};
ghost use Rattle.std.specs.Int.{from_bool};
ghost use Rattle.layouts.specs.View.{view};
ghost use Rattle.places.specs.Tables.{Used};
ghost use Rattle.stores.specs.Keys.{key_of};
ghost use Rattle.building.specs.Operations.{restrict_key};
ghost use Rattle.building.specs.Restricting.{Restricted};

use crate::combine::{combine, finish};
use crate::operation::Operation;
use kinds::Value;
use layouts::{Layout, Turn};
use places::place::Content;
use places::places::Places;
use stores::{Key, Store};

// Under which key a store has the restriction of a handle.
fn stored_under(h: u16, mark: u8, constant: bool) -> Key
    ensures { key_of result ≡ restrict_key h mark (from_bool constant) }
{
    Key {
        operation: stores::Operation::Restrict,
        left: h,
        right: 2 * u16::from(mark) + u16::from(constant),
    }
}

// A handle with a mark put to a constant.
pub fn restrict<K: Value, S: Store>(
    places: &mut Places,
    store: &mut S,
    layout: &Layout,
    h: u16,
    mark: u8,
    constant: bool,
) -> Option<u16>
    requires used { Used places.old h }
    requires mark { mark < (view layout.now).size }
    ensures { Restricted K.Value.kind (view layout.now) mark (from_bool constant) h places.old places.new (S.Store.entries store.old) (S.Store.entries store.new) result }
{
    let Content::Node { level, low, high } = places.content(h) else {
        return Some(h);
    };
    let target = layout.level(mark);
    if level > target {
        return Some(h);
    }
    if level == target {
        return match layout.form(level).turn(constant) {
            Turn::Low => Some(low),
            Turn::High => Some(high),
            Turn::Both => combine::<K, S>(places, store, layout, Operation::Sum, low, high),
        };
    }
    let key = stored_under(h, mark, constant);
    if let Some(answer) = places.trusted(store.ask(key), level) {
        return Some(answer);
    }
    let x = restrict::<K, S>(places, store, layout, low, mark, constant)?;
    let y = restrict::<K, S>(places, store, layout, high, mark, constant)?;
    finish(places, store, layout, key, level, x, y)
}
