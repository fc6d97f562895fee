// The names of the playbooks of one call.
ghost use Rattle.std.specs.Prelude.{◌≡◌, ◌<◌, length};

/// The names of one playbook or more, in the order of the words.
#[derive(Drop)]
pub struct BookNames<'w> {
    items: Vec<&'w str>,
    ghost some: { 0 < length items.items },
}

impl<'w> BookNames<'w> {
    ghost use Rattle.std.specs.Prelude.{◌≡◌, ◌<◌, length};

    pub fn new(items: Vec<&'w str>) -> BookNames<'w>
        requires { 0 < length items.items }
        ensures { result.items ≡ items.entry }
    {
        BookNames { items }
    }

    pub fn as_slice(&self) -> &[&'w str]
        ensures value { result.now ≡ self.now.items.items }
        ensures some { 0 < length result.now }
    {
        self.items.as_slice()
    }
}
