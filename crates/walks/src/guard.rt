ghost use Rattle.std.specs.Prelude.{◌≡◌, ◌≤◌, ◌++◌, length, drop, replicate};

/// The entries of a lent walk list that a call works with. They become zero when the call ends, on whichever way.
// Each call that is lent a list tests its length and takes the first entries itself. One function for it was tried: no proof is found of what the list is
// after a function that answers a part of it, or a guard over a part, only where it is long enough.
pub struct Cleared<'a> {
    pub list: &'a mut [u32],
}

impl Drop for Cleared<'_> {
    fn drop(self)
        ensures { self.exit.0.now ≡ replicate (length self.entry.list.now) 0 }
    {
        let Cleared { list } = self;
        list.fill(0);
    }
}

/// Makes the first entries of a list zero.
// A count beside the list, and no part of it: what is said is what the whole list is afterwards.
pub fn clear(list: &mut [u32], count: usize)
    requires { count ≤ length list.old }
    ensures { list.new ≡ replicate count 0 ++ drop count list.old }
{
    list[..count].fill(0);
}
