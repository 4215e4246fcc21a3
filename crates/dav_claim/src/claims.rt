//! What tells whose claim is there.
ghost use Rattle.std.specs.Prelude.{IsTrue};

/// A claim of an opening over a disk `D`: drawn at random, and written in the place of the one that was
/// there before anything of the disk is read. So the one that is there is that of the latest opening.
pub trait Claims<D> {
    // A look found this claim there, at a moment at which the disk was so.
    ghost found_own: { Self → D → Type 0 };

    /// Looks whether it is the claim that is there, while the disk is as it is. False too where that
    /// can't be read.
    fn is_own(&mut self, disk: &D) -> bool
        ensures { IsTrue result → found_own self.new disk.now };
}
