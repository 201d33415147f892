// What holds of books of both kinds; each contract is a theorem.
ghost use Rattle.books.specs.Kinds.{KindsAgree, PositivesMakeAList};
ghost use Rattle.books.specs.Making.{TablesAnsweredOnce, ListsAnsweredOnce};

// A table book and the list book of its positive shares mean the same, and the second can be made
// where the first can.
pub fn kinds_agree()
    ensures same { KindsAgree }
    ensures made { PositivesMakeAList }
{}

// Whatever tables or records are given, only one answer to them is right.
pub fn answered_once()
    ensures tables { TablesAnsweredOnce }
    ensures lists { ListsAnsweredOnce }
{}
