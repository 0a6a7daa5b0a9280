// Laws: what the plan and the answers of `asimut` on a source come to, said of files. They cost nothing when they are called.
ghost use Rattle.asimut_run.specs.Laws.{AnswersBoth, ChangesNoFile};

/// What `asimut` on a source answers is an answer to the contents of SOURCE and PATTERNS, neither of which is too long, and
/// whatever the status it changes no file.
pub fn asimut_law()
    ensures answers { AnswersBoth }
    ensures files { ChangesNoFile }
{}
