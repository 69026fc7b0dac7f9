// Runs a watch on the bench: samples of a pattern, in seconds, under a layer of minutes and a shift, are judged by the rule of the file
// rule.bin. The words behind the command are the first stamp, the samples to a stamp, the count, the shift, the slots, and the letter words.
#![tactic(auto)]

use anyhow::Context;
use feed::{Feed, Minute, Pattern, Shift};
use lines::Report;
use logic::{DrawRefusal, Line, Point};
use printing::{put_counts, put_draw, put_held};
use std::env::Args;
use std::io::Write;
use std::iter::Skip;
use std::num::ParseIntError;
use std::str::FromStr;
use std::{env, fs};
use watch::{MOST_TREATED, Watch};

// The pattern under the two layers.
type Pile = Shift<Minute<Pattern>>;

// Draws go to trays of so many lines, in turn: the first has room for any draw, the last only where no point is held.
const TRAYS: [usize; 3] = [MOST_TREATED, 4, 1];

// After so many draws the watch is read out, and again.
const READ_OUT: u32 = 16;

// The bench stops after so many draws at the latest.
const MOST_DRAWS: u32 = 100_000;

// What the words behind the command ask for.
#[derive(Drop)]
struct Setting {
    first: u32,
    per: u32,
    count: u32,
    shift: i32,
    slots: usize,
    words: Vec<u16>,
}

// The number that the next word is.
fn next_number<N: FromStr<Err = ParseIntError>>(words: &mut Skip<Args>) -> anyhow::Result<N> {
    let word = words
        .next()
        .context("usage: FIRST PER COUNT SHIFT SLOTS WORD..")?;
    Ok(word.parse::<N>()?)
}

// The words behind the command.
fn read_setting(rt: &HostRuntime) -> anyhow::Result<Setting> {
    let mut args = env::args(rt)?.skip(1);
    let mut setting = Setting {
        first: next_number(&mut args)?,
        per: next_number(&mut args)?,
        count: next_number(&mut args)?,
        shift: next_number(&mut args)?,
        slots: next_number(&mut args)?,
        words: Vec::new(rt.alloc()),
    };
    for word in args {
        setting.words.push(word.parse::<u16>()?)?;
    }
    Ok(setting)
}

// Draws once, with a tray of so many lines, and prints what it brings; answers whether an entry is left.
fn draw_once(
    rt: &HostRuntime,
    watch: &mut Watch,
    pile: &mut Pile,
    lines: usize,
) -> anyhow::Result<bool> {
    let mut tray = [Line::True(Point::default()); TRAYS[0]];
    let size = lines.min(tray.len());
    let mut text = Vec::new(rt.alloc());
    let drawn = put_draw(&mut text, watch, pile, &mut tray[0..size])?;
    rt.stdout().write_all(&text)?;
    if !drawn && pile.has_entry() {
        println!(rt; "tray of {size} refused {}", DrawRefusal::Tray.number())?;
    }
    Ok(pile.has_entry())
}

// Prints the held points and the counts.
fn read_out(rt: &HostRuntime, watch: &Watch) -> anyhow::Result<()> {
    let mut text = Vec::new(rt.alloc());
    put_held(&mut text, watch)?;
    put_counts(&mut text, watch)?;
    rt.stdout().write_all(&text)?;
    Ok(())
}

// Draws until no entry is left.
fn judge(rt: &HostRuntime, watch: &mut Watch, pile: &mut Pile) -> anyhow::Result<()> {
    for (turn, lines) in (0..MOST_DRAWS).zip(TRAYS.iter().cycle()) {
        if !draw_once(rt, watch, pile, *lines)? {
            break;
        }
        if turn % READ_OUT == READ_OUT - 1 {
            read_out(rt, watch)?;
        }
    }
    read_out(rt, watch)
}

// Sets the bench up and runs it.
fn run(rt: &HostRuntime) -> anyhow::Result<()> {
    let setting = read_setting(rt)?;
    let mut pattern = Pattern::new();
    let made = pattern.make(setting.first, setting.per, &setting.words, setting.count);
    if let Err(refusal) = made {
        println!(rt; "pattern refused {}", refusal.number())?;
        return Ok(());
    }
    let mut watch = Watch::new();
    if let Err(refusal) = watch.fit(&fs::read(rt, "rule.bin")?, setting.slots) {
        println!(rt; "{}", Report::from(refusal))?;
        return Ok(());
    }
    let mut pile = Shift::new(Minute::new(pattern), setting.shift);
    println!(rt; "height {}", pile.height())?;
    judge(rt, &mut watch, &mut pile)
}

fn main(rt: HostRuntime) -> anyhow::Result<()> {
    run(&rt)
}
