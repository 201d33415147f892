// What holds of every round. Each function does nothing: its contract is the law.
ghost use Rattle.following.specs.Laws.{RunsAreDetermined, SettlesTheCourse, SettledCoursesArePossible, CoursesCanBeLed, RoundsAreCovered, FloorsAreMet, RoundsAreDetermined};

// A round settles at the total of the course that was reported, and every course that can come about can be led so.
pub fn rounds_settle_their_courses()
    ensures determined { RunsAreDetermined }
    ensures totals { SettlesTheCourse }
    ensures possible { SettledCoursesArePossible }
    ensures each { CoursesCanBeLed }
{}

// A round that follows a plan by the floor never settles below the value planned where it began, and some round settles at it.
pub fn rounds_are_covered()
    ensures covered { RoundsAreCovered }
    ensures met { FloorsAreMet }
    ensures answered { RoundsAreDetermined }
{}
