// How much room the lists and the objects of a text are likely to take.

/// The most places for which room is taken before they are filled.
const MOST: usize = 64;

/// How many items the last list had, and how many members the last object, at each depth. The next one there is likely
/// to have as many. Nothing rests on it: where there are more, more room is taken.
#[derive(Drop)]
pub(crate) struct Rooms {
    lists: [u8; 128],
    objects: [u8; 128],
}

fn room_at(rooms: &[u8], depth: usize) -> usize {
    match rooms.get(depth) {
        Some(room) => usize::from(*room),
        None => 0,
    }
}

fn keep(rooms: &mut [u8], depth: usize, count: usize) {
    if let Some(room) = rooms.get_mut(depth) {
        *room = count.min(MOST) as u8;
    }
}

impl Rooms {
    /// Nothing was read yet.
    pub(crate) fn new() -> Rooms {
        Rooms {
            lists: [0; 128],
            objects: [0; 128],
        }
    }

    /// The room for a list at this depth.
    pub(crate) fn for_list(&self, depth: usize) -> usize {
        room_at(&self.lists, depth)
    }

    /// The room for an object at this depth.
    pub(crate) fn for_object(&self, depth: usize) -> usize {
        room_at(&self.objects, depth)
    }

    /// A list at this depth had so many items.
    pub(crate) fn keep_list(&mut self, depth: usize, count: usize) {
        keep(&mut self.lists, depth, count);
    }

    /// An object at this depth had so many members.
    pub(crate) fn keep_object(&mut self, depth: usize, count: usize) {
        keep(&mut self.objects, depth, count);
    }
}
