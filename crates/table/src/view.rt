// A table to be read: its words, and how many slots stand in them.
ghost use Rattle.std.specs.Prelude.{◌*◌, ◌≤◌, length};

#[derive(Clone, Copy)]
pub struct Table<'a> {
    pub words: &'a [u64],
    pub slots: usize,
    ghost few: { slots ≤ 512 },
    ghost held: { 4 * slots ≤ length words.now },
}
