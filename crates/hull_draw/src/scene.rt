ghost use Rattle.std.specs.Prelude.{◌≡◌, IfOk};
ghost use Rattle.hull_draw.specs.Replays.{asked_lines};
ghost use Rattle.hull_draw.specs.Scenes.{IsScene};

use super::bridges::bridges;
use super::drawing::DrawOptions;
use super::marks::{Mark, marks};
use super::replaying::replay_right_lines;
use hull_book::{Journal, Line};
use hull_set::{HullSet, NoMemory};
use hull_tree::trees_are_sound;
use lattice::Point;
use leaf_trees::Bridge;
use std::alloc::Global;
use std::marker::Model;

/// The content of a picture of a set.
#[derive(Debug, Drop)]
pub struct Scene {
    pub(crate) limit: u32,
    pub(crate) lines: u32,
    pub(crate) wrong: Option<u32>,
    pub(crate) marks: Vec<Mark>,
    pub(crate) vertices: Vec<Point>,
    pub(crate) area: u128,
    pub(crate) bridges: Vec<Bridge>,
}

impl Model for Scene {
    ghost use Rattle.hull_draw.specs.Scenes.{SceneValue};

    ghost Value = { SceneValue };

    ghost view = { λ s. record {
      limit = s.limit;
      lines = s.lines;
      wrong = s.wrong;
      marks = s.marks.items;
      vertices = s.vertices.items;
      area =
          s.area;
      bridges = s.bridges.items;
    } };
}

/// Returns the requested lines: the first ones, or all if no number is given.
fn asked(line: Option<u32>, lines: &[Line]) -> &[Line]
    ensures { result.now ≡ asked_lines line lines.now }
{
    match line {
        Some(n) if (n as usize) < lines.len() => &lines[..n as usize],
        _ => lines,
    }
}

/// Returns the scene after the first lines of a journal, or after all if no number is given. No line is replayed
/// after a wrong one.
///
/// # Errors
///
/// Fails with `NoMemory` if memory was refused.
pub fn scene_of(alloc: Global, journal: &Journal, options: &DrawOptions) -> Result<Scene, NoMemory>
    ensures { IfOk result (IsScene journal.now options.now) }
{
    let lines = asked(options.line, journal.lines());
    let done = replay_right_lines(alloc, journal.head(), lines)?;
    trees_are_sound(&done.set);
    let marks = marks(alloc, &done.set)?;
    let vertices = done.set.vertices()?;
    let area = done.set.area2();
    let bridges = if options.bridges {
        bridges(alloc, &done.set)?
    } else {
        Vec::new(alloc)
    };
    Ok(Scene {
        limit: journal.limit(),
        lines: done.lines,
        wrong: done.wrong,
        marks,
        vertices,
        area,
        bridges,
    })
}
