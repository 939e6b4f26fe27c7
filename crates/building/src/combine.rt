ghost use Rattle.std.specs.Prelude.{◌≡◌, ℕ, ◌+◌, ◌<◌};
ghost use Rattle.layouts.specs.Forms.{decomposition};
ghost use Rattle.layouts.specs.View.{view};
ghost use Rattle.places.specs.Tables.{Used, Under};
ghost use Rattle.stores.specs.Keys.{key_of};
ghost use Rattle.building.specs.Operations.{meant};
ghost use Rattle.building.specs.Parts.{crossing, Joined};
ghost use Rattle.building.specs.Shortcuts.{floor};
ghost use Rattle.building.specs.Calls.{Combined, Known, Closed};

use crate::operation::Operation;
use crate::quick::{Answer, higher, shorten};
use crate::steps::{join, parts};
use kinds::Value;
use layouts::{Form, Layout};
use places::places::Places;
use stores::{Key, Store};

// Whether an operation takes the parts of its operands crosswise at a level of that type.
fn crosses(form: Form, operation: Operation) -> bool
    ensures { result ≡ crossing (decomposition form) (meant operation) }
{
    matches!(operation, Operation::Product)
        && matches!(form, Form::PositiveDavio | Form::NegativeDavio)
}

// The answer that a shortcut or the store has, where the higher of the levels is known.
fn known<K: Value, S: Store>(
    places: &Places,
    store: &S,
    operation: Operation,
    level: u8,
    a: u16,
    b: u16,
) -> Option<Answer>
    requires level { level ≡ floor places.now a b }
    requires left { Used places.now a }
    requires right { Used places.now b }
    ensures { Known K.Value.kind (meant operation) a b places.now (S.Store.entries store.now) result }
{
    if let Some(answer) = shorten::<K>(places, operation, a, b) {
        return Some(answer);
    }
    let stored = places.trusted(store.ask(operation.key(a, b)), level)?;
    Some(Answer::Handle(stored))
}

// The node of two parts, which the store is offered as the answer to a key.
pub fn finish<S: Store>(
    places: &mut Places,
    store: &mut S,
    layout: &Layout,
    key: Key,
    level: u8,
    low: u16,
    high: u16,
) -> Option<u16>
    requires within { level < 32 }
    requires left { Under places.old (level + 1) low }
    requires right { Under places.old (level + 1) high }
    ensures joined { Joined (view layout.now) places.old places.new level low high result }
    ensures closed { Closed (S.Store.entries store.old) (S.Store.entries store.new) (key_of key) result }
{
    let h = join(places, layout, level, low, high)?;
    store.offer(key, h);
    Some(h)
}

// The sum, difference or product of two handles.
pub fn combine<K: Value, S: Store>(
    places: &mut Places,
    store: &mut S,
    layout: &Layout,
    operation: Operation,
    a: u16,
    b: u16,
) -> Option<u16>
    requires left { Used places.old a }
    requires right { Used places.old b }
    ensures { Combined K.Value.kind (view layout.now) (meant operation) a b places.old places.new (S.Store.entries store.old) (S.Store.entries store.new) result }
{
    let level = higher(places, a, b);
    if let Some(answer) = known::<K, S>(places, store, operation, level, a, b) {
        return match answer {
            Answer::Handle(h) => Some(h),
            Answer::Value(word) => places.leaf(word),
        };
    }
    let (la, ha) = parts(places, layout, level, a);
    let (lb, hb) = parts(places, layout, level, b);
    let key = operation.key(a, b);
    let low = combine::<K, S>(places, store, layout, operation, la, lb)?;
    if crosses(layout.form(level), operation) {
        // A Davio product's high part is (la · hb + ha · lb) + ha · hb.
        let lh = combine::<K, S>(places, store, layout, Operation::Product, la, hb)?;
        let hl = combine::<K, S>(places, store, layout, Operation::Product, ha, lb)?;
        let mixed = combine::<K, S>(places, store, layout, Operation::Sum, lh, hl)?;
        let hh = combine::<K, S>(places, store, layout, Operation::Product, ha, hb)?;
        let high = combine::<K, S>(places, store, layout, Operation::Sum, mixed, hh)?;
        return finish(places, store, layout, key, level, low, high);
    }
    let high = combine::<K, S>(places, store, layout, operation, ha, hb)?;
    finish(places, store, layout, key, level, low, high)
}
