//! What holds of each list. The function does nothing: its contract is the law.

ghost use Rattle.sp_publish.specs.Laws.{ListsNeverGoBack};

/// As a list goes on, its newest edition never becomes an older one.
pub fn lists_never_go_back()
    ensures { ListsNeverGoBack }
{}
