// Things go to the front of a slice.
ghost use Rattle.std.specs.Prelude.{◌≡◌, ◌≤◌, length, take};
ghost use Rattle.feed.specs.Lists.{onto};

use logic::HeldPoint;
use truth::Condition;

// What is put in a place of a table of the watch, a held point part by part. A held point as a whole, or a whole row of conditions from the first on,
// is compiled to a call of `memmove` where it goes from one table of a watch to another, and the library for C would need one function more from
// outside (`nm -u`).
pub(crate) trait Put: Copy {
    fn put(&self, place: &mut Self)
        ensures { place.new ≡ self.now };
}

impl Put for Condition {
    fn put(&self, place: &mut Condition) {
        *place = *self;
    }
}

impl Put for HeldPoint {
    fn put(&self, place: &mut HeldPoint) {
        place.point = self.point;
        place.condition = self.condition;
    }
}

// Puts all of some things over as many others, the last one first (see `Put`).
fn put_all<T: Put>(to: &mut [T], from: &[T])
    requires { length to.old ≡ length from.now }
    ensures { to.new ≡ from.now }
{
    for k in (0..to.len()).rev() {
        from[k].put(&mut to[k]);
    }
}

// Puts the first `n` things to the front of others, whose rest stays.
pub(crate) fn put_front<T: Put>(to: &mut [T], from: &[T], n: usize)
    requires from { n ≤ length from.now }
    requires to { n ≤ length to.old }
    ensures { to.new ≡ onto (take n from.now) to.old }
{
    put_all(&mut to[..n], &from[..n]);
}
