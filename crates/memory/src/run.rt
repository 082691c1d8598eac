// The run: where the search stands.

// The tasks of an agenda: the literals of the image from `at` to `end`, or, where there is no end, the record `at` and those behind it; none,
// where the two are equal. Then those of the cell at `link`, an agenda too.
#[derive(Clone, Copy, Debug, PartialEq, Eq)]
pub struct Agenda {
    // A place in the image, or a record.
    pub at: usize,
    // A place in the image, or NO_END.
    pub end: usize,
    // A cell of the work area.
    pub link: usize,
}

// At work, in the order of a step's pieces from the last to the first (specs/States says why), or at the end.
#[derive(Clone, Copy, Debug, PartialEq, Eq)]
pub enum State {
    // The task, a literal or a record, is in hand, and the agenda behind it.
    Task,
    // The agenda is in hand.
    Agenda,
    // The task is a list to be entered.
    List,
    // The task is a way to be taken, the first of a chain.
    Way,
    // The node failed.
    Failed,
    // Every node is visited.
    Over,
    // The budget is spent.
    Spent,
    // The list is full.
    Full,
}

#[derive(Clone, Copy, Debug, PartialEq, Eq)]
pub struct Run {
    pub state: State,
    // A literal, a record, a list or a way, by the state.
    pub task: usize,
    // What comes behind the task.
    pub agenda: Agenda,
    // The trail's end.
    pub marked: usize,
    // The frames' end.
    pub top: usize,
    // Nodes visited.
    pub nodes: usize,
    // Sets kept.
    pub count: usize,
    // The abducibles on the sheet, as a set.
    pub set: u64,
}
