// A listed code, with what is known of it.

ghost use Rattle.codes.specs.Work.{Known};

use codes::Code;

#[derive(Clone, Copy)]
pub(crate) struct Listed {
    pub(crate) code: Code,
    ghost known: { Known code },
}
