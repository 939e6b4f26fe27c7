ghost use Rattle.std.specs.Prelude.{◌≡◌, ℕ, ◌+◌, ◌<◌};
ghost use Rattle.layouts.specs.Forms.{decomposition};
ghost use Rattle.layouts.specs.View.{view};
ghost use Rattle.places.specs.Tables.{Under};
ghost use Rattle.building.specs.Parts.{spared, Parted, Joined};

use layouts::{Form, Layout};
use places::place::Content;
use places::places::Places;

// The high part, at a level of that type, of a handle that stands deeper.
fn spare(form: Form, h: u16) -> u16
    ensures { result ≡ spared (decomposition form) h }
{
    match form {
        Form::Shannon => h,
        Form::PositiveDavio | Form::NegativeDavio => 0,
    }
}

// The low and the high part of a handle at a level.
pub fn parts(places: &Places, layout: &Layout, level: u8, h: u16) -> (u16, u16)
    requires within { level < 32 }
    requires stands { Under places.now level h }
    ensures { Parted (view layout.now) places.now level h result.0 result.1 }
{
    match places.content(h) {
        Content::Node {
            level: at,
            low,
            high,
        } if at == level => (low, high),
        _ => (h, spare(layout.form(level), h)),
    }
}

// A level and its two parts go one by one, as places and layouts give and take them: a struct would be taken apart at each call.

// The node of two parts at a level, unless the drop rule removes it: what has the parts of a deeper handle is that handle.
pub fn join(places: &mut Places, layout: &Layout, level: u8, low: u16, high: u16) -> Option<u16>
    requires within { level < 32 }
    requires left { Under places.old (level + 1) low }
    requires right { Under places.old (level + 1) high }
    ensures { Joined (view layout.now) places.old places.new level low high result }
{
    if high == spare(layout.form(level), low) {
        return Some(low);
    }
    places.node(level, low, high)
}
