// The data types of an element, by their codes.
ghost use Rattle.std.specs.Prelude.{◌≡◌};
ghost use Rattle.form.specs.Answers.{Answers};
ghost use Rattle.form.specs.Types.{code_of, size_of, code_refusal};

use crate::fault::Fault;

// Each has its code for a discriminant.
#[derive(Clone, Copy, Debug, PartialEq, Eq)]
pub enum DataType {
    UInt8 = 1,
    Int8 = 2,
    UInt16 = 3,
    Int16 = 4,
    UInt32 = 5,
    Int32 = 6,
    UInt64 = 7,
    Int64 = 8,
    Float32 = 9,
    Float64 = 10,
}

impl DataType {
    // How many bytes an element has.
    pub fn size(&self) -> usize
        ensures { result ≡ size_of self.now }
    {
        match self {
            DataType::UInt8 | DataType::Int8 => 1,
            DataType::UInt16 | DataType::Int16 => 2,
            DataType::UInt32 | DataType::Int32 | DataType::Float32 => 4,
            DataType::UInt64 | DataType::Int64 | DataType::Float64 => 8,
        }
    }
}

impl From<DataType> for usize {
    ghost from_gives = { λ data_type code. code ≡ code_of data_type };

    fn from(data_type: DataType) -> usize {
        data_type as usize
    }
}

// The data type with the code. The codes stand here once more: a list of all ten and a search in it would be longer.
impl TryFrom<usize> for DataType {
    type Error = Fault;

    ghost try_from_gives = { λ code. Answers (code_refusal code) (λ data_type. code_of data_type ≡ code) };

    fn try_from(code: usize) -> Result<DataType, Fault> {
        match code {
            1 => Ok(DataType::UInt8),
            2 => Ok(DataType::Int8),
            3 => Ok(DataType::UInt16),
            4 => Ok(DataType::Int16),
            5 => Ok(DataType::UInt32),
            6 => Ok(DataType::Int32),
            7 => Ok(DataType::UInt64),
            8 => Ok(DataType::Int64),
            9 => Ok(DataType::Float32),
            10 => Ok(DataType::Float64),
            _ => Err(Fault::DataType),
        }
    }
}
