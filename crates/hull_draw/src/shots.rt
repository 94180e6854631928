ghost use Rattle.std.specs.Prelude.{◌≡◌, ◌≤◌, ◌++◌, length, min, take, IfOk};
ghost use Rattle.hull_draw.specs.Films.{IsFilm, call_point, called_marks};

use super::drawing::DrawOptions;
use super::marks::Mark;
use super::scene::{Scene, scene_of};
use hull_book::{Journal, Line};
use hull_set::{Call, NoMemory};
use lattice::Point;
use std::alloc::{AllocError, Global};

/// How many frames a film has at most, one for each line.
pub const FRAME_LIMIT: usize = 600;

/// Returns the point that a call names.
pub(crate) fn call_point(call: &Call) -> Option<Point>
    ensures { result ≡ call_point call.now }
{
    match *call {
        Call::Add(point) | Call::Remove(point) | Call::Place(point) | Call::Tangents(point) => {
            Some(point)
        }
        _ => None,
    }
}

/// Returns the marks of all points that calls name.
pub(crate) fn called_marks(alloc: Global, lines: &[Line]) -> Result<Vec<Mark>, AllocError>
    ensures { IfOk result (λ marks. marks.items ≡ called_marks lines.now) }
{
    let mut marks = Vec::new(alloc);
    let mut rest = lines;
    while let Some((line, after)) = rest.split_first() {
        if let Some(point) = call_point(&line.call) {
            marks.push(Mark {
                point,
                multiplicity: 1,
            })?;
        }
        rest = after;
    }
    Ok(marks)
}

/// Returns the scenes of a film: after one line, after two, and so on, each as [`scene_of`] returns it. There is one
/// for each line up to the limit, but none after the first wrong line.
///
/// Each scene is replayed from the empty set, which takes at most 180,300 calls in all.
///
/// # Errors
///
/// Fails with `NoMemory` if memory was refused.
pub fn scenes_of(alloc: Global, journal: &Journal, size: u64) -> Result<Vec<Scene>, NoMemory>
    ensures film { IfOk result (λ scenes. IsFilm journal.now size scenes.items) }
    ensures few { IfOk result (λ scenes. length scenes.items ≤ FRAME_LIMIT) }
    ensures within { IfOk result (λ scenes. length scenes.items ≤ length journal.now.lines) }
{
    let mut scenes = Vec::new(alloc);
    let count = journal.lines().len().min(FRAME_LIMIT);
    while scenes.len() < count {
        let options = DrawOptions {
            line: Some(scenes.len() as u32 + 1),
            bridges: false,
            size,
        };
        let scene = scene_of(alloc, journal, &options)?;
        let wrong = scene.wrong;
        let Ok(()) = scenes.push(scene) else {
            return Err(NoMemory);
        };
        if wrong.is_some() {
            return Ok(scenes);
        }
    }
    Ok(scenes)
}
