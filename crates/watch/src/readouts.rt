// The read-outs of a watch.
ghost use Rattle.std.specs.Prelude.{◌≡◌};
ghost use Rattle.logic.specs.Draws.{held_count, held_name};
ghost use Rattle.watch.specs.States.{state};

use crate::watch::Watch;
use logic::Point;

impl Watch {
    // How many entries were drawn.
    pub fn drawn(&self) -> u32
        ensures { result ≡ (state self.now).drawn }
    {
        self.drawn
    }

    // How many entries were accepted.
    pub fn accepted(&self) -> u32
        ensures { result ≡ (state self.now).accepted }
    {
        self.accepted
    }

    // How many entries were turned away.
    pub fn turned_away(&self) -> u32
        ensures { result ≡ (state self.now).turned }
    {
        self.turned_away
    }

    // How many points are held.
    pub fn held(&self) -> usize
        ensures { result ≡ held_count (state self.now) }
    {
        self.count
    }

    // The k-th held point, counted from 0, the earliest first; none where there are fewer.
    pub fn held_point(&self, k: usize) -> Option<Point>
        ensures { result ≡ held_name (state self.now) k }
    {
        self.held[..self.count].get(k).map(|held| held.point)
    }
}
