// What is known of free names.
ghost use Rattle.text_names.specs.Laws.{TextsAreFree, TextsAreWords};

/// There are as many free texts as are asked for, all different, and none is taken. Of a stem that is no beginning of a reserved word
/// all are identifiers.
pub fn texts_are_free()
    ensures free { TextsAreFree }
    ensures words { TextsAreWords }
{}
