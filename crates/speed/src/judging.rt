// Draws in turn, and the count of the lines that they give.
ghost use Rattle.std.specs.Prelude.{◌≡◌, ◌+◌, ◌^◌, ◌<◌, length};
ghost use Rattle.watch.specs.States.{state};
ghost use Rattle.speed.specs.Tallies.{counted, course, none, size, tallied};

use crate::tally::Tally;
use feed::Feed;
use logic::{Line, Point};
use watch::{MOST_TREATED, Watch};

impl Tally {
    // One line more.
    fn add(&mut self, line: Line)
        requires { size self.old + 1 < 2 ^ 64 }
        ensures { self.new ≡ counted self.old line }
    {
        match line {
            Line::True(_) => self.trues += 1,
            Line::False(_) => self.falses += 1,
            Line::Joined { .. } => self.joins += 1,
        }
    }

    // Some lines more.
    fn add_all(&mut self, lines: &[Line])
        requires { size self.old + length lines.now < 2 ^ 64 }
        ensures { self.new ≡ tallied self.old lines.now }
    {
        for line in lines {
            self.add(*line);
        }
    }
}

// Makes so many draws, each with a tray that has room, and counts their lines.
pub(crate) fn draw_all<F: Feed>(watch: &mut Watch, feed: &mut F, draws: u32) -> Tally
    ensures lines { result ≡ tallied none (course (state watch.old) (F.Feed.entries feed.old) draws).lines }
    ensures state { state watch.new ≡ (course (state watch.old) (F.Feed.entries feed.old) draws).state }
{
    let mut tally = Tally {
        trues: 0,
        falses: 0,
        joins: 0,
    };
    let mut tray = [Line::True(Point::default()); MOST_TREATED];
    for _k in 0..draws {
        if let Ok(given) = watch.draw(feed, &mut tray) {
            tally.add_all(&tray[0..given]);
        }
    }
    tally
}
