// A group on the numbers of a fixed width of bytes.
ghost use Rattle.std.specs.Prelude.{◌≡◌};
ghost use Rattle.groups.specs.Groups.{Operations, GroupLaws};

pub trait Group {
    ghost group: { Self → Operations };

    // How many bytes a number has.
    fn width(&self) -> usize
        ensures { result ≡ (group self.now).width };

    fn plus(&self, a: u64, b: u64) -> u64
        ensures { result ≡ (group self.now).plus a b };

    fn less(&self, a: u64, b: u64) -> u64
        ensures { result ≡ (group self.now).less a b };

    ghost lawful: { (g : Self) → GroupLaws (group g) };
}
