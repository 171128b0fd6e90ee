//! The order in which counts are found at once: a place once those are that it waits for.
use crate::shape::Shape;
use std::alloc::{AllocError, Global};
use xdr_types::KindId;

/// How many parts each place waits for, and which places have it as a part. The order that comes of it decides how soon
/// counts are found, and not what they are.
#[derive(Drop)]
pub struct Waits {
    // How many parts of a place are still to come.
    left: Vec<usize>,
    // The places that have a place as a part, once for each time.
    users: Vec<Vec<usize>>,
}

impl Waits {
    /// The waits where the place of each shape waits for so many parts. An error is an allocation failure.
    pub fn start(
        alloc: Global,
        shapes: &Vec<Shape>,
        left: Vec<usize>,
    ) -> Result<Waits, AllocError> {
        let mut users = Vec::with_capacity(alloc, shapes.len())?;
        for _shape in shapes {
            users.push(Vec::new(alloc))?;
        }
        for place in 0..shapes.len() {
            add_user(&mut users, &shapes[place], place)?;
        }
        Ok(Waits { left, users })
    }

    /// The places that wait for nothing. An error is an allocation failure.
    pub fn ready(&self, alloc: Global) -> Result<Vec<usize>, AllocError> {
        let mut ready = Vec::new(alloc);
        for place in 0..self.left.len() {
            if self.left[place] == 0 {
                ready.push(place)?;
            }
        }
        Ok(ready)
    }

    /// A place is found: those that waited for it last are added to the ready ones. An error is an allocation failure.
    pub fn free(&mut self, place: usize, ready: &mut Vec<usize>) -> Result<(), AllocError> {
        if place >= self.users.len() {
            return Ok(());
        }
        for user in &self.users[place] {
            if is_last(&mut self.left, *user) {
                ready.push(*user)?;
            }
        }
        Ok(())
    }
}

// A part of a place is there. Whether it is the last for which the place waits.
fn is_last(left: &mut Vec<usize>, place: usize) -> bool {
    if place >= left.len() {
        return false;
    }
    let before = left[place];
    if before == 0 {
        return false;
    }
    left[place] = before - 1;
    before == 1
}

// The place of a shape has its parts.
fn add_user(users: &mut Vec<Vec<usize>>, shape: &Shape, place: usize) -> Result<(), AllocError> {
    match shape {
        Shape::Alone {
            least: _,
            greatest: _,
        } => Ok(()),
        Shape::Items { item, count: _ } => add_use(users, *item, place),
        Shape::Fields { fields } => add_uses(users, fields, place),
        Shape::OneOf { parts } => add_uses(users, parts, place),
        Shape::UpTo { item, most: _ } => add_use(users, *item, place),
    }
}

fn add_uses(
    users: &mut Vec<Vec<usize>>,
    ids: &Vec<KindId>,
    place: usize,
) -> Result<(), AllocError> {
    for id in ids {
        add_use(users, *id, place)?;
    }
    Ok(())
}

fn add_use(users: &mut Vec<Vec<usize>>, id: KindId, place: usize) -> Result<(), AllocError> {
    let part = id.place as usize;
    if part < users.len() {
        users[part].push(place)?;
    }
    Ok(())
}
