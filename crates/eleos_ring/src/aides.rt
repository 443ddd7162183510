// Who is told of a job, and who helps while it is pending.
ghost use Rattle.std.specs.Prelude.{◌<◌, ℕ};
ghost use Rattle.eleos_words.specs.declared.layout.TheConstants.{CELLS};

/// Is told that a cell has a job. What that does is the bell's own affair: a job need not be done.
pub trait Bell {
    /// What the bell becomes where it is rung with a cell's number.
    ghost rung: { Self → Self → ℕ → Type 0 };

    fn ring(&mut self, cell: u32)
        requires { cell < CELLS }
        ensures { rung self.old self.new cell };
}

/// Does some work while a job is pending. It promises nothing.
pub trait Aide {
    fn turn(&mut self);
}
